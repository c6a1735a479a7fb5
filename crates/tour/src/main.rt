#![tactic(auto)]

use books::line::Counts;
use choices::choices;
use console::account::{Refusal, StopChoices, ToLine, write_line};
use console::inputs::{Inputs, read_inputs};
use console::line::build::LINE_ROOM;
use jobs::job::Job;
use std::io::{ErrorKind, Write};
use std::{fs, io};
use streets::legs::LegRecord;
use streets::list::{ListStreet, MOST_PLACES};

// The leg records that the console has room for.
const LEG_ROOM: usize = 128;

// The bytes of a file, none where it is missing.
fn text_of(rt: &HostRuntime, path: &str) -> io::Result<Vec<u8>> {
    match fs::read(rt, path) {
        Err(error) if error.kind() == ErrorKind::NotFound => Ok(Vec::new(rt.alloc())),
        read => read,
    }
}

// Prints one line.
fn print_line<L: ToLine>(rt: &HostRuntime, shows: &L) -> io::Result<()> {
    let mut out = [0u8; LINE_ROOM];
    let length = write_line(&mut out, shows).unwrap();
    rt.stdout().write_all(&out[..length])
}

// Prints how much was read and, stop by stop, on which places the stop can be put.
fn print_account(rt: &HostRuntime, street: &ListStreet, job: &Job, read: Inputs) -> io::Result<()> {
    print_line(rt, &read)?;
    for stop in 0..job.len() {
        let choices = choices(street, job, stop).unwrap();
        print_line(rt, &StopChoices { stop, choices })?;
    }
    Ok(())
}

// Reads the two texts, and prints the account of them or the first refusal.
fn main(rt: HostRuntime) -> io::Result<()> {
    let book = text_of(&rt, "street.txt")?;
    let text = text_of(&rt, "job.txt")?;
    let mut kinds = [0u8; MOST_PLACES];
    let mut legs = [LegRecord::default(); LEG_ROOM];
    let mut job = Job::new();
    match read_inputs(&book, &text, &mut kinds, &mut legs, &mut job) {
        Ok(read) => {
            let Counts { places, legs: told } = read.street;
            let street = ListStreet::new(&kinds[..places], &legs[..told]);
            print_account(&rt, &street, &job, read)
        }
        Err(refusal) => print_line(&rt, &Refusal::from(refusal)),
    }
}
