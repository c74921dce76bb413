// The orders of document 01's refusals, told apart: for each two that stand next to each other, an input on which both hold. The answer
// is the first one's; with the two in the other order it would be the second one's. Where two have the same number, the next but one is
// taken. A refusal has to leave the record, the read buffer and the list as they were, which each line says too. The expected output is
// written by hand from the document. Refusal 7 of the builder, of next list and of the clear step is the C layer's.
#![tactic(auto)]

mod abandoning;
mod beginning;
mod building;
mod clearing;
mod completing;
mod handing;
mod outcomes;
mod print;
mod records;
mod scripts;

use std::io;

fn main(rt: HostRuntime) -> io::Result<()> {
    let mut out = rt.stdout();
    building::rows(&mut out)?;
    scripts::rows(&mut |pair, request| beginning::row(&mut out, pair, request))?;
    beginning::rows(&mut out)?;
    scripts::rows(&mut |pair, request| handing::row(&mut out, pair, request))?;
    handing::rows(&mut out)?;
    scripts::rows(&mut |pair, request| completing::row(&mut out, pair, request))?;
    completing::rows(&mut out)?;
    outcomes::rows(&mut out)?;
    abandoning::rows(&mut out)?;
    clearing::rows(&mut out)
}
