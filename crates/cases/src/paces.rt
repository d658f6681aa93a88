//! Direct questions of the start rules.
use crate::text::NumbersText;
use pacing::floor::FloorRule;
use pacing::paced::PacedRule;
use pacing::rule::StartRule;
use std::io;

// A floor, and a row of counts.
const FLOORS: &[(u32, &[u32])] = &[(0, &[0, 1]), (7, &[6, 7, 8]), (u32::MAX, &[u32::MAX])];

// A floor and a pace, and rows of counts.
const PACES: &[(u32, u16, &[&[u32]])] = &[
    (0, 0, &[&[0, 1, 4096, u32::MAX]]),
    (7, 0, &[&[7, 8, 8]]),
    (7, 1, &[&[8, 8, 8, 8]]),
    (7, 2, &[&[8, 9, 9, 9], &[7, 8, 8, 8], &[8, 7, 8, 8, 8]]),
    (u32::MAX, u16::MAX, &[&[u32::MAX, 0]]),
];

// A floor, and counts with how often the longest pace is asked with each. A yes at the floor sets the tally back too.
const LONGEST: &[(u32, &[(u32, u32)])] = &[
    (
        0,
        &[
            (1, 65_535),
            (1, 1),
            (1, 65_535),
            (0, 1),
            (1, 65_534),
            (1, 1),
            (1, 1),
            (1, 1),
        ],
    ),
    (3, &[(4, 65_535), (4, 1), (3, 2)]),
];

pub fn work(rt: &HostRuntime) -> io::Result<()> {
    println!(rt; "paces: direct questions")?;
    floors(rt)?;
    pace_and_floor(rt)?;
    longest(rt)
}

fn floors(rt: &HostRuntime) -> io::Result<()> {
    for (floor, counts) in FLOORS {
        println!(rt; "  floor rule, floor {floor}")?;
        ask(rt, &mut FloorRule::new(*floor), counts)?;
    }
    Ok(())
}

fn pace_and_floor(rt: &HostRuntime) -> io::Result<()> {
    for (floor, pace, rows) in PACES {
        println!(rt; "  paced rule, floor {floor}, pace {pace}")?;
        ask_rows(rt, &mut PacedRule::new(*floor, *pace), rows)?;
    }
    Ok(())
}

fn longest(rt: &HostRuntime) -> io::Result<()> {
    println!(rt; "paces: pace 65535")?;
    for (floor, rows) in LONGEST {
        ask_often(rt, &mut PacedRule::new(*floor, u16::MAX), rows)?;
    }
    Ok(())
}

fn ask_rows(rt: &HostRuntime, rule: &mut PacedRule, rows: &[&[u32]]) -> io::Result<()> {
    for counts in rows {
        ask(rt, rule, counts)?;
    }
    Ok(())
}

fn ask<R: StartRule>(rt: &HostRuntime, rule: &mut R, counts: &[u32]) -> io::Result<()> {
    print!(rt; "  asked{}:", NumbersText(counts))?;
    for count in counts {
        print_answer(rt, rule.ask(*count))?;
    }
    println!(rt; "")
}

fn print_answer(rt: &HostRuntime, answer: bool) -> io::Result<()> {
    print!(rt; " {}", if answer { "yes" } else { "no" })
}

fn ask_often(rt: &HostRuntime, rule: &mut PacedRule, rows: &[(u32, u32)]) -> io::Result<()> {
    for (count, times) in rows {
        print_often(rt, *count, *times, yes_of(rule, *count, *times))?;
    }
    Ok(())
}

fn print_often(rt: &HostRuntime, count: u32, times: u32, yes: u32) -> io::Result<()> {
    println!(rt; "  asked {count}, {times} in a row: {yes} times yes")
}

// How often a rule says yes to a count that it is asked with so many times.
fn yes_of(rule: &mut PacedRule, count: u32, times: u32) -> u32 {
    let mut yes = 0_u32;
    for _ in 0..times {
        if rule.ask(count) {
            yes = yes.saturating_add(1);
        }
    }
    yes
}
