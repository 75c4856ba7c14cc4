// How a row of the sheet is printed.
use crate::helpers::check_shown;
use sheet::Row;
use std::test::Fail;

#[test]
fn rows_are_printed_as_their_numbers(rt: HostRuntime) -> Result<(), Fail> {
    let row = Row {
        frames: 3,
        lru: 10,
        fifo: 9,
        clock: 8,
        min: 7,
    };
    check_shown(rt.alloc(), row, "3,10,9,8,7")
}
