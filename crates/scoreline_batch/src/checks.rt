use checked_table::{Table, check};
use decimals::read_numbers;
use image::{Section, Spot, spot_at};
use input::Fault;
use std::fs;

// The spot of an image that a fault is about.
fn spot_of(numbers: &[i32], fault: Fault) -> Spot {
    match fault {
        Fault::GoesRound(state) => Spot::Record(Section::States, state),
        _ => spot_at(numbers, fault.told().place),
    }
}

// Prints what the check says of a table's numbers.
fn check_numbers(rt: &HostRuntime, name: &str, numbers: &[i32]) -> anyhow::Result<()> {
    match check(numbers) {
        Ok(()) => {
            let counts = Table::open(numbers).counts();
            println!(rt; "{name}: passes: {counts}")?;
        }
        Err(fault) => match spot_of(numbers, fault) {
            Spot::Past => println!(rt; "{name}: {fault}")?,
            spot => println!(rt; "{name}: {fault}: {spot}")?,
        },
    }
    Ok(())
}

// Prints what there is to say of a file as a table.
fn check_file(rt: &HostRuntime, name: &str) -> anyhow::Result<()> {
    match fs::read(rt, name) {
        Ok(bytes) => match read_numbers(rt.alloc(), bytes.as_slice()) {
            Ok(numbers) => check_numbers(rt, name, numbers.as_slice())?,
            Err(error) => println!(rt; "{name}: {error}")?,
        },
        Err(error) => println!(rt; "{name}: cannot be read: {error}")?,
    }
    Ok(())
}

/// Checks the tables in some files, given by their paths, and prints what there is to say of each.
pub fn check_files(rt: &HostRuntime, paths: &[String]) -> anyhow::Result<()> {
    for path in paths {
        check_file(rt, path.as_str())?;
    }
    Ok(())
}
