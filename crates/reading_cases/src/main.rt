// Reads one case a line from standard input and prints what the readers answer:
//   book KINDS LEGS TEXT    a street book, into lists with so much room
//   job TEXT                a job text
//   limit TEXT              whether the console reads the text
// In TEXT \t is byte 9, \n byte 10, \h byte 200, and \*N;c stands for N bytes c.
#![tactic(auto)]

ghost use Rattle.std.specs.Prelude.{◌≤◌, length, OnOk};

use anyhow::Context;
use books::book::read_book;
use books::line::Counts;
use console::limit::admit;
use faults::{Text, TextFault};
use job_texts::text::read_job;
use jobs::job::Job;
use jobs::stops::{Stop, Tie};
use std::alloc::{AllocError, Global};
use std::fmt::{Display, Formatter, Write};
use std::slice::Iter;
use std::{fmt, io};
use streets::legs::{Leg, LegRecord};

// A kind that stands in the list before a text is read.
const OLD_KIND: u8 = 77;

// A leg record that stands in the list before a text is read.
const OLD_LEG: LegRecord = LegRecord {
    from: 77,
    to: 77,
    leg: Leg {
        climb: 7,
        seconds: 7,
    },
};

// What follows `\*`: a count, one byte that ends it, and the byte that stands so often.
fn fill(out: &mut Vec<u8>, bytes: &mut Iter<u8>) -> Result<(), AllocError>
    ensures { OnOk result (length bytes.new.rest.now ≤ length bytes.old.rest.now) }
{
    // not by `parse`, which would bring an error: a count is small, and what a longer one means does not matter
    let mut count = 0u32;
    while let Some(b) = bytes.next() {
        if !b.is_ascii_digit() {
            break;
        }
        count = count.wrapping_mul(10).wrapping_add(u32::from(*b - b'0'));
    }
    if let Some(b) = bytes.next() {
        // one by one, so that the room doubles: `extend` would take room for just these, and the next byte twice as much
        for _ in 0..count {
            out.push(*b)?;
        }
    }
    Ok(())
}

// What follows a backslash; a letter that stands for nothing else stands for itself.
fn escaped(out: &mut Vec<u8>, bytes: &mut Iter<u8>) -> Result<(), AllocError>
    ensures { OnOk result (length bytes.new.rest.now ≤ length bytes.old.rest.now) }
{
    match bytes.next() {
        Some(b't') => out.push(9)?,
        Some(b'n') => out.push(10)?,
        Some(b'h') => out.push(200)?,
        Some(b'*') => fill(out, bytes)?,
        Some(b) => out.push(*b)?,
        None => {}
    }
    Ok(())
}

// The bytes that a text of a case stands for.
fn unescaped(heap: Global, text: &str) -> Result<Vec<u8>, AllocError> {
    let mut out = Vec::new(heap);
    let mut bytes = text.as_bytes().iter();
    while let Some(b) = bytes.next() {
        match b {
            b'\\' => escaped(&mut out, &mut bytes)?,
            _ => out.push(*b)?,
        }
    }
    Ok(out)
}

// What a case shows of a kind, a leg record or a stop. The types are of other crates, so it is no `Display`.
trait Show {
    fn show<W: Write>(&self, f: &mut Formatter<W>) -> fmt::Result;
}

impl Show for u8 {
    fn show<W: Write>(&self, f: &mut Formatter<W>) -> fmt::Result {
        write!(f, "{self}")
    }
}

impl Show for LegRecord {
    fn show<W: Write>(&self, f: &mut Formatter<W>) -> fmt::Result {
        let LegRecord { from, to, leg } = *self;
        write!(f, "{from}-{to}:{}:{}", leg.climb, leg.seconds)
    }
}

// A stop: its kind, and how it hangs on its parent.
impl Show for Stop {
    fn show<W: Write>(&self, f: &mut Formatter<W>) -> fmt::Result {
        let Stop { kind, tie } = *self;
        let Some(Tie { parent, link }) = tie else {
            return write!(f, "{kind}");
        };
        write!(f, "{kind}:{parent}:{link}")
    }
}

// Values, each after a space.
#[derive(Clone, Copy)]
struct Spaced<'a, T>(&'a [T]);

impl<T: Show> Display for Spaced<'_, T> {
    fn fmt<W: Write>(&self, f: &mut Formatter<W>) -> fmt::Result {
        for value in self.0 {
            write!(f, " ")?;
            value.show(f)?;
        }
        Ok(())
    }
}

// A fault: its number, its line and field, and in which text it is.
#[derive(Clone, Copy)]
struct ShownFault(TextFault);

impl Display for ShownFault {
    fn fmt<W: Write>(&self, f: &mut Formatter<W>) -> fmt::Result {
        let text = match self.0.text {
            Text::Book => "book",
            Text::Job => "job",
        };
        let number = self.0.number();
        let line = self.0.line();
        let field = self.0.field();
        write!(f, "E {number} {line} {field} in a {text}")
    }
}

// Reads a street book. The lists are printed whole, so that what was left untouched shows.
fn book_case(rt: &HostRuntime, rest: &str) -> anyhow::Result<()> {
    let (kind_room, rest) = rest.split_once(' ').context("no room for kinds")?;
    let (leg_room, text) = rest.split_once(' ').context("no room for legs")?;
    let mut kinds = vec![in rt.alloc(); OLD_KIND; kind_room.parse::<usize>()?]?;
    let mut legs = vec![in rt.alloc(); OLD_LEG; leg_room.parse::<usize>()?]?;
    let bytes = unescaped(rt.alloc(), text)?;
    match read_book(&bytes, &mut kinds, &mut legs) {
        Ok(Counts { places, legs }) => println!(rt; "places {places} legs {legs}")?,
        Err(fault) => println!(rt; "{}", ShownFault(fault))?,
    }
    if kinds.len() + legs.len() <= 16 {
        println!(rt; "  kinds{} legs{}", Spaced(&kinds), Spaced(&legs))?;
    }
    Ok(())
}

// Reads a job text and prints the stops that the job then has.
fn job_case(rt: &HostRuntime, text: &str) -> anyhow::Result<()> {
    let bytes = unescaped(rt.alloc(), text)?;
    let mut job = Job::new();
    match read_job(&bytes, &mut job) {
        Ok(stops) => println!(rt; "stops {stops}")?,
        Err(fault) => println!(rt; "{}", ShownFault(fault))?,
    }
    println!(rt; "  job{}", Spaced(job.stops()))?;
    Ok(())
}

// Asks whether the console reads the text.
fn limit_case(rt: &HostRuntime, text: &str) -> anyhow::Result<()> {
    let bytes = unescaped(rt.alloc(), text)?;
    match admit(&bytes) {
        Ok(length) => println!(rt; "{length} bytes")?,
        Err(refusal) => println!(rt; "E {}", refusal.number())?,
    }
    Ok(())
}

// Prints a case's line and what it asks for; a line without a case's name asks for nothing.
fn case(rt: &HostRuntime, line: &str) -> anyhow::Result<()> {
    println!(rt; "{line}")?;
    match line.split_once(' ') {
        Some(("book", rest)) => book_case(rt, rest),
        Some(("job", rest)) => job_case(rt, rest),
        Some(("limit", rest)) => limit_case(rt, rest),
        _ => Ok(()),
    }
}

fn main(rt: HostRuntime) -> anyhow::Result<()> {
    for line in rt.lines(rt.alloc()) {
        case(&rt, line?.as_str())?;
    }
    Ok(())
}
