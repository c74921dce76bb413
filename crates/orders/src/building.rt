// The builder: 1, 2, 3; and the operation step, which may need no list. 2 and 3 never hold together: a read of 0 is within its limit.
use crate::print::print_answer;
use list::{Built, CommandList};
use refusal::Numbered;
use std::io::{self, Write};

fn is_blank(list: &CommandList) -> bool {
    list.words.iter().all(|word| *word == 0) && list.count == 0
}

pub(super) fn print_list(out: &mut impl Write, list: &CommandList) -> io::Result<()> {
    if is_blank(list) {
        writeln!(out, ", no list")
    } else {
        writeln!(out, ", a list")
    }
}

fn row(out: &mut impl Write, call: &str, pair: &str, built: Built) -> io::Result<()> {
    print_answer(out, call, pair, built.answer.number())?;
    print_list(out, &built.list)
}

pub(super) fn rows(out: &mut impl Write) -> io::Result<()> {
    row(
        out,
        "builder, read",
        "1 (address above 127) before 2 (read of 0)",
        list::setup_read(128, 0, true, true, false),
    )?;
    row(
        out,
        "builder, read",
        "1 (address above 127) before 3 (over the limit)",
        list::setup_read(128, 33, true, true, true),
    )?;
    row(
        out,
        "builder, write",
        "1 (address above 127) before 3 (over the limit)",
        list::setup_write(128, &[0; 32], true, true),
    )?;
    row(
        out,
        "operation step, read",
        "1 (address above 127) before no list needed",
        list::read_operation(128, 0, true, true, false),
    )?;
    row(
        out,
        "operation step, write",
        "1 (address above 127) before no list needed",
        list::write_operation(128, b"", false, false),
    )
}
