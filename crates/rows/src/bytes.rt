// Rows and their bytes.
ghost use Rattle.rows.specs.Bytes.{BytesBothWays};

/// A law: bytes and rows of this layout determine each other.
pub fn bytes_both_ways()
    ensures { BytesBothWays }
{}
