//! Pairs of numbers: which are zones, and which are efforts.
use atoms::Zone;
use atoms::fault::ZoneFault;
use atoms::kind::Kind;
use atoms::zones::Zones;
use pacing::effort::Effort;
use pacing::fault::EffortFault;
use std::{fmt, io};

const ZONES: &[(u32, u32)] = &[
    (0, 0),
    (0, 1),
    (0, 65_535),
    (0, 65_536),
    (1, 65_535),
    (2, 65_535),
    (100, 50),
    (100, 0),
    (65_535, 1),
    (65_535, 2),
    (65_536, 0),
    (65_536, 1),
    (1, u32::MAX),
    (u32::MAX, u32::MAX),
];

const EFFORTS: &[(u32, u32)] = &[
    (0, 1),
    (1, 0),
    (65, 1),
    (1, 65),
    (0, 65),
    (65, 0),
    (u32::MAX, 1),
    (1, 1),
    (64, 64),
    (1, 64),
];

#[derive(Clone, Copy)]
struct ZoneText(Result<Zone, ZoneFault>);

impl fmt::Display for ZoneText {
    fn fmt<W: fmt::Write>(&self, f: &mut fmt::Formatter<W>) -> fmt::Result {
        match self.0 {
            Ok(zone) => write!(f, "code {}, last {}", Zones.code(&zone), zone.last()),
            Err(fault) => write!(f, "{fault}"),
        }
    }
}

#[derive(Clone, Copy)]
struct EffortText(Result<Effort, EffortFault>);

impl fmt::Display for EffortText {
    fn fmt<W: fmt::Write>(&self, f: &mut fmt::Formatter<W>) -> fmt::Result {
        match self.0 {
            Ok(effort) => write!(f, "k1 {}, k2 {}", effort.k1(), effort.k2()),
            Err(fault) => write!(f, "{fault}"),
        }
    }
}

pub fn work(rt: &HostRuntime) -> io::Result<()> {
    println!(rt; "refusals: pairs that are no zone")?;
    zones(rt)?;
    println!(rt; "refusals: pairs that are no effort")?;
    efforts(rt)
}

fn zones(rt: &HostRuntime) -> io::Result<()> {
    for (offset, length) in ZONES {
        println!(rt;
            "  {offset} {length}: {}",
            ZoneText(Zone::new(*offset, *length))
        )?;
    }
    Ok(())
}

fn efforts(rt: &HostRuntime) -> io::Result<()> {
    for (k1, k2) in EFFORTS {
        println!(rt; "  {k1} {k2}: {}", EffortText(Effort::new(*k1, *k2)))?;
    }
    Ok(())
}
