//! A table of delayed paths.
//!
//! The kind `delays` has the steps `list` and a name, `listed`, `deliver` and `rest`, on a table in which `a`,
//! `big.psd`, `p1`, `p2` and `p3` are delayed and `b` isn't. Each answers with a line.
ghost use Rattle.std.specs.Prelude.{◌≡◌, IfOk};
ghost use Rattle.delay_table.specs.Table.{idle_table};
ghost use Rattle.protocol_cases.specs.Delays.{six_names};

use byte_path::Bytes;
use case_kit::{Cell, Words, found, push_all, shown};
use delay_table::DelayTable;
use std::alloc::{AllocError, Global};
use std::test::Fail;

/// Some names, in the order of their bytes.
fn six_names(alloc: Global) -> Result<Vec<Bytes>, AllocError>
    ensures { IfOk result (λ names. names.items ≡ six_names) }
{
    let mut names = Vec::with_capacity(alloc, 6)?;
    names.push_reserved(Bytes::copy_of(alloc, b"a")?);
    names.push_reserved(Bytes::copy_of(alloc, b"b")?);
    names.push_reserved(Bytes::copy_of(alloc, b"big.psd")?);
    names.push_reserved(Bytes::copy_of(alloc, b"p1")?);
    names.push_reserved(Bytes::copy_of(alloc, b"p2")?);
    names.push_reserved(Bytes::copy_of(alloc, b"p3")?);
    Ok(names)
}

/// Delays each name but `b`.
fn delay_five(table: &mut DelayTable)
    requires { table.old ≡ idle_table six_names }
{
    table.delay(0);
    table.delay(2);
    table.delay(3);
    table.delay(4);
    table.delay(5);
}

/// A table of some names, of which each but `b` is delayed.
pub fn table_of_six(alloc: Global) -> Result<DelayTable, AllocError> {
    let mut table = DelayTable::reserve(alloc, six_names(alloc)?)?;
    delay_five(&mut table);
    Ok(table)
}

/// What a step asks for.
#[derive(Clone, Copy)]
enum Step {
    List,
    Listed,
    Deliver,
    Rest,
}

const STEPS: Words<Step> = &[
    (b"list", Step::List),
    (b"listed", Step::Listed),
    (b"deliver", Step::Deliver),
    (b"rest", Step::Rest),
];

/// What a step answers.
fn answer_of(
    alloc: Global,
    table: &mut DelayTable,
    step: Step,
    name: &[u8],
) -> Result<Vec<u8>, AllocError> {
    match step {
        Step::List => shown(alloc, table.list(name)),
        Step::Listed => shown(alloc, table.listed()),
        Step::Deliver => shown(alloc, table.deliver()),
        Step::Rest => shown(alloc, table.rest()),
    }
}

/// Appends what each step answers.
fn push_answers(
    alloc: Global,
    came: &mut Vec<u8>,
    table: &mut DelayTable,
    cells: &[Cell],
) -> Result<(), Fail> {
    for cell in cells {
        let step = found(STEPS, &cell.key)?;
        let answer = answer_of(alloc, table, step, &cell.value)?;
        push_all(came, &[&answer, b"\n"])?;
    }
    Ok(())
}

/// What the steps answer over a table.
fn answers_of(alloc: Global, table: &mut DelayTable, cells: &[Cell]) -> Result<Vec<u8>, Fail> {
    let mut came = Vec::new(alloc);
    push_answers(alloc, &mut came, table, cells)?;
    Ok(came)
}

/// What the steps answer.
pub fn delayed(alloc: Global, cells: &[Cell]) -> Result<Vec<u8>, Fail> {
    answers_of(alloc, &mut table_of_six(alloc)?, cells)
}
