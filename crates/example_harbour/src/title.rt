// The built-in title: ten voices and eight rows.
use kinds::all_different::AllDifferent;
use kinds::clause::{Clause, Literal};
use kinds::element::Element;
use kinds::linear::Linear;
use rows::row::Row;
use sets::ValueSet;
use std::alloc::Global;

pub(crate) const NAME: &str = "Harbour at Dawn";

// A voice: its name, and the lanes or banks that it may take.
#[derive(Clone, Copy)]
pub(crate) struct Voice {
    pub(crate) name: &'static str,
    pub(crate) places: ValueSet,
}

// The voices. The last two are placed on sample banks, the others on mixer lanes.
pub(crate) static VOICES: [Voice; 10] = [
    Voice {
        name: "lead",
        places: 0b0000_1111,
    },
    Voice {
        name: "bass",
        places: 0b0000_0010,
    },
    Voice {
        name: "pad",
        places: 0b0000_1111,
    },
    Voice {
        name: "kick",
        places: 0b0001_1101,
    },
    Voice {
        name: "snare",
        places: 0b0011_1100,
    },
    Voice {
        name: "hat",
        places: 0b1111_1000,
    },
    Voice {
        name: "strings",
        places: 0b1111_1111,
    },
    Voice {
        name: "choir",
        places: 0b1111_1111,
    },
    Voice {
        name: "strings bank",
        places: 0b0111_0000,
    },
    Voice {
        name: "choir bank",
        places: 0b0111_0000,
    },
];

// The bank that each lane is wired to.
const WIRING: [u8; 8] = [4, 4, 5, 5, 4, 7, 6, 7];

// The title's rows, in the order in which they take turns. They name the voices by their places in the list above.
pub(crate) fn rows(heap: Global) -> anyhow::Result<Vec<Row>> {
    let strings_on_0 = Literal::Is { voice: 6, value: 0 };
    let pad_not_on_2 = Literal::IsNot { voice: 2, value: 2 };
    let mut rows = Vec::new(heap);
    // the first six voices take lanes of their own
    rows.push(AllDifferent::row(heap, &[0, 1, 2, 3, 4, 5])?)?;
    // the load 2 × bass + 3 × kick + 2 × snare + hat is at most 26
    rows.push(Linear::row(heap, 26, &[(1, 2), (3, 3), (4, 2), (5, 1)])?)?;
    rows.push(Clause::row(heap, &[strings_on_0, pad_not_on_2])?)?;
    // the bank of the strings, and that of the choir, is the one that its lane is wired to
    rows.push(Element::row(heap, 6, 8, &WIRING)?)?;
    rows.push(Element::row(heap, 7, 9, &WIRING)?)?;
    // the choir is at least four lanes above the strings: strings - choir <= -4
    rows.push(Linear::row(heap, -4, &[(6, 1), (7, -1)])?)?;
    // the loudness 5 × kick + 6 × snare + 3 × hat + 5 × choir is at most 71, and at least 71
    rows.push(Linear::row(heap, 71, &[(3, 5), (4, 6), (5, 3), (7, 5)])?)?;
    rows.push(Linear::row(heap, -71, &[(3, -5), (4, -6), (5, -3), (7, -5)])?)?;
    Ok(rows)
}
