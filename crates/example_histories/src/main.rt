// Plays the history of calls that standard input has, one call a line, over the bare store beside a large shelf, and
// beside a small one, and prints every reply.
#![tactic(auto)]

use histories::reply::Reply;
use histories::standard::play_beside_bare;
use parse::parse_calls;
use std::io;

mod parse;

// How many words the two shelves have: more than the history needs, and so few that some keys are lost.
const LARGE: usize = 4096;

const SMALL: usize = 44;

fn print_replies(rt: &HostRuntime, replies: &[Reply]) -> anyhow::Result<()> {
    for reply in replies {
        println!(rt; "{reply}")?;
    }
    Ok(())
}

fn main(rt: HostRuntime) -> anyhow::Result<()> {
    let text = io::read_to_string(rt.alloc(), rt.stdin())?;
    let calls = parse_calls(rt.alloc(), &text)?;
    let (over_bare, over_large) = play_beside_bare(rt.alloc(), LARGE, &calls)?;
    let (_, over_small) = play_beside_bare(rt.alloc(), SMALL, &calls)?;
    println!(rt; "bare store:")?;
    print_replies(&rt, &over_bare)?;
    println!(rt; "shelf of {LARGE} words:")?;
    print_replies(&rt, &over_large)?;
    println!(rt; "shelf of {SMALL} words:")?;
    print_replies(&rt, &over_small)
}
