//! Plans at the edges of their format.
use replies::answer_plan;
use std::alloc::{AllocError, Global};
use std::{fmt, io};

#[derive(Clone, Copy)]
struct PlanText<'a>(&'a [u8]);

impl fmt::Display for PlanText<'_> {
    fn fmt<W: fmt::Write>(&self, f: &mut fmt::Formatter<W>) -> fmt::Result {
        for byte in self.0 {
            write!(f, "{}", ByteText(*byte))?;
        }
        Ok(())
    }
}

#[derive(Clone, Copy)]
struct ByteText(u8);

impl fmt::Display for ByteText {
    fn fmt<W: fmt::Write>(&self, f: &mut fmt::Formatter<W>) -> fmt::Result {
        match self.0 {
            b'\n' => f.write_str("/"),
            b' '..=b'~' => f.write_char(char::from(self.0)),
            other => write!(f, "<{other}>"),
        }
    }
}

// Where a plan or a line of it ends.
const ENDS: &[&[u8]] = &[
    b"",
    b"\n",
    b"s",
    b"store 3 1 1 1",
    b"store 3 1 1 1\n",
    b"store 3 1 1 1\nlook 0",
    b"store 3 1 1 1\nlook",
    b"store 3 1 1 1\n\n",
    b"store 3 1 1 1\nlook 0\n\n",
    b"store 3 1 1 1\nlook 0\n ",
    b"\nstore 3 1 1 1\n",
];

// How numbers are written, and how many there are.
const NUMBERS: &[&[u8]] = &[
    b"store 03 1 1 1\n",
    b"store 00 1 1 0\n",
    b"store 0 1 1 0\n",
    b"store 3 1 1 1\nclear 01\n",
    b"store 3 1 1 1\nclear 99999\n",
    b"store 3 1 1 1\nclear 100000\n",
    b"store 100000 1 1 1\n",
    b"store 3 1 1 1\nlook -1\n",
    b"store 3 1 1 1\nlook +1\n",
    b"store 3 1 1 1\nlook a\n",
    b"store 3 1 1\n",
    b"store 3 1 1 1\ncons 0 1\n",
    b"store 3 1 1 1\ncons 0 1 2 3\n",
    b"store 3 1 1 1\nsame 0 0x\n",
];

// What stands between the words of a line.
const SPACES: &[&[u8]] = &[
    b"store  3 1 1 1\n",
    b"store 3  1 1 1\n",
    b"store\t3 1 1 1\n",
    b"store 3\t1 1 1\n",
    b"store 3 1 1 1 \n",
    b"store 3 1 1 1\r\n",
    b"store 3 1 1 1\n look 0\n",
    b"store 3 1 1 1\nlook \n",
    b"store 3 1 1 1\nlook\n",
    b"store 3 1 1 1\nlook 0,\n",
    b"store 3 1 1 1\xff\n",
    b"\xef\xbb\xbfstore 3 1 1 1\n",
    b"store 3 1 1 1\nlook \xb2\n",
    b"store 3 1 1 1\nlook 0\x00\n",
    b"store 3 1 1 1\nlook\xa00\n",
];

// Names cut short, and longer than any.
const NAMES: &[&[u8]] = &[
    b"stor 3 1 1 1\n",
    b"stores 3 1 1 1\n",
    b"Store 3 1 1 1\n",
    b"store 3 1 1 1\nca 0 1\n",
    b"store 3 1 1 1\ncaar 0 1\n",
    b"store 3 1 1 1\ncarr 0 1\n",
    b"store 3 1 1 1\ncor 0 1\n",
    b"store 3 1 1 1\ncon 0 1 2\n",
    b"store 3 1 1 1\nconses 0 1 2\n",
    b"store 3 1 1 1\nrplac 0 1\n",
    b"store 3 1 1 1\nrplacb 0 1\n",
    b"store 3 1 1 1\nrplacad 0 1\n",
    b"store 3 1 1 1\nl 0\n",
    b"store 3 1 1 1\nlock 0\n",
    b"store 3 1 1 1\nxlook 0\n",
    b"store 3 1 1 1\n# note\n",
];

// The first line.
const OPENINGS: &[&[u8]] = &[
    b"store 3 1 1 1\nstore 3 1 1 1\n",
    b"store 3 1 1 1\nlook 0\nstore 3 1 1 1\n",
    b"load 1 120 80\n",
    b"same 0 0\n",
    b"look 0\nstore 3 1 1 1\n",
    b"store 3 0 1 1\n",
    b"store 3 0 1 1\nlook 0\nbad\n",
    b"store 3 1 65 1\nlook 0\n",
    b"store 0 0 0 0\nstore\n",
    b"store 3 64 64 99999\ncons 0 1 1\n",
    b"store 0 1 1 1\ncons 0 1 1\ncons 0 1 1\ncons 0 1 1\n",
    b"store 4095 64 2 4095\ncons 0 1 1\ncons 0 1 1\ncons 0 1 1\ncons 0 1 1\n",
    b"store 4096 64 2 4095\ncons 0 1 1\ncons 0 1 1\ncons 0 1 1\ncons 0 1 1\n",
    b"store 4097 64 2 4095\ncons 0 1 1\ncons 0 1 1\ncons 0 1 1\ncons 0 1 1\n",
    b"store 99999 64 2 4095\ncons 0 1 1\ncons 0 1 1\ncons 0 1 1\ncons 0 1 1\n",
];

// What calls are answered: a load in the order of its refusals, a plan with a refused cons, and what stands before a fault.
const ANSWERS: &[&[u8]] = &[
    b"store 3 1 1 1\nload 16 65535 2\nload 16 4096 1\nload 0 4096 1\nload 0 4095 1\nlook 0\n",
    b"store 3 1 1 1\nload 99999 0 0\nload 99999 99999 99999\nload 0 99999 1\nload 0 0 65536\n",
    b"store 3 1 1 1\nload 1 120 80\ncons 0 1 2\ncons 0 1 2\ncons 3 0 0\ncons 4 0 0\ncons 4 0 0\nlook 1\ncar 5 4\nsame 5 0\ncar 5 1\n",
    b"store 3 1 1 1\nclear 16\nlook 0\ncar 0 0\ncons 16 17 18\nbad\nlook 0\n",
    b"store 1 1 1 0\ncons 0 1 1\ncons 1 0 0\ncons 1 0 0\ncons 1 0 0\nlook 1\nclear 0\ncons 1 0 0\ncons 1 0 0\ncons 1 0 0\nlook 1\nlook",
];

// The last lines of the longest plans.
const LAST: &[&str] = &[
    "look 15\n",
    "clear 15\n",
    "look 150",
    "look 1500",
    "look 0x\n",
];

pub fn work(rt: &HostRuntime) -> io::Result<()> {
    println!(rt;
        "plans: a line end is written as /, and a byte that does not print by its number"
    )?;
    edges(rt)?;
    longest(rt)
}

fn edges(rt: &HostRuntime) -> io::Result<()> {
    each(rt, ENDS)?;
    each(rt, NUMBERS)?;
    each(rt, SPACES)?;
    each(rt, NAMES)?;
    each(rt, OPENINGS)?;
    each(rt, ANSWERS)
}

fn each(rt: &HostRuntime, plans: &[&[u8]]) -> io::Result<()> {
    for plan in plans {
        answer(rt, plan)?;
    }
    Ok(())
}

fn longest(rt: &HostRuntime) -> io::Result<()> {
    println!(rt; "plans: the longest")?;
    for last in LAST {
        long_plan(rt, last)?;
    }
    Ok(())
}

fn answer(rt: &HostRuntime, plan: &[u8]) -> io::Result<()> {
    let text = answer_plan(rt.alloc(), plan)?;
    print_answers(rt, plan, text.as_bytes())
}

fn print_answers(rt: &HostRuntime, plan: &[u8], answers: &[u8]) -> io::Result<()> {
    println!(rt; "  \"{}\" gives \"{}\"", PlanText(plan), PlanText(answers))
}

// A plan of 32,760 bytes, eight less than the most, and a last line.
fn plan_ending(heap: Global, last: &str) -> Result<String, AllocError> {
    let first = "store 3 1 1 1\n";
    let look = "look 0\n";
    let mut text = String::from_str(heap, first)?;
    for _ in 0..(32_760 - first.len()) / look.len() {
        text.push_str(look)?;
    }
    text.push_str(last)?;
    Ok(text)
}

fn long_plan(rt: &HostRuntime, last: &str) -> io::Result<()> {
    let plan = plan_ending(rt.alloc(), last)?;
    let text = answer_plan(rt.alloc(), plan.as_bytes())?;
    print_long(rt, plan.len(), last, text.as_str())
}

fn print_long(rt: &HostRuntime, bytes: usize, last: &str, text: &str) -> io::Result<()> {
    let lines = text.lines().count();
    let end = text.lines().last().unwrap_or("");
    println!(rt;
        "  {bytes} bytes, the last line \"{}\": lines of answers {lines}, bytes {}, the last \"{end}\"",
        PlanText(last.as_bytes()),
        text.len()
    )
}
