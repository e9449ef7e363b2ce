//! The gate of the program.
use edge_kit::{Gate, NoGate, Point};
use std::test::Fail;

#[test]
fn the_gate_of_the_program_holds_nobody(_rt: HostRuntime) -> Result<(), Fail> {
    for point in [Point::Claimed, Point::Replied, Point::Closed] {
        NoGate.at(0, 0, point);
    }
    Ok(())
}
