// Which stops a place stands for, and which place does not exist. A stop stands for its whole station: its parent's children; else its own;
// else itself.
ghost use Rattle.std.specs.Prelude.{◌<◌};
ghost use Rattle.repository.specs.Accepted.{Accepted};
ghost use Rattle.repository.specs.NetOf.{net_of};

use model::{Location, Query};
use std::{fmt, io};

// The numbers of stops, as a list in words.
fn print_stops(rt: &impl Print, stops: &[u32]) -> io::Result<()> {
    let kind = if stops.len() == 1 { "stop" } else { "stops" };
    print!(rt; ": {kind} ")?;
    for (i, stop) in stops.iter().enumerate() {
        let before = match i {
            0 => "",
            _ if i == stops.len() - 1 => " and ",
            _ => ", ",
        };
        print!(rt; "{before}{stop}")?;
    }
    Ok(())
}

// The stops that a stop stands for, where it is not that one alone.
fn print_station(rt: &impl Print, tables: &[u32], name: &str, s: u32) -> io::Result<()>
    requires accepted { Accepted tables.now }
    requires s_bound { s < (net_of tables.now).stops }
{
    let stops = discovery::places::stops_of_stop(tables, s);
    if matches!(stops, [only] if *only == s) {
        return Ok(());
    }
    print!(rt; "{name} stop {s}")?;
    print_stops(rt, stops)?;
    match repository::places::station_of(tables, s) {
        Some(_) => println!(rt; " of its station."),
        None => println!(rt; " of this station."),
    }
}

// The stops of an area. A program that could ask for its journey has tables of at most 128 stops.
fn print_area(rt: &impl Print, tables: &[u32], name: &str, a: u32) -> io::Result<()>
    requires accepted { Accepted tables.now }
    requires a_bound { a < (net_of tables.now).areas }
{
    let mut places = [0u32; 128];
    let n = repository::places::stop_count(tables) as usize;
    if places.len() < n {
        return Ok(());
    }
    let k = discovery::places::area_stops(tables, a, &mut places[..n]);
    let Some(stops) = places.get(..k) else {
        return Ok(());
    };
    print!(rt; "{name} area {a}")?;
    print_stops(rt, stops)?;
    println!(rt; ".")
}

fn print_place(rt: &impl Print, tables: &[u32], name: &str, l: Location) -> io::Result<()>
    requires { Accepted tables.now }
{
    match l {
        Location::Stop(s) if s < repository::places::stop_count(tables) => {
            print_station(rt, tables, name, s)
        }
        Location::Area(a) if a < repository::places::area_count(tables) => {
            print_area(rt, tables, name, a)
        }
        _ => Ok(()),
    }
}

// Which stops were meant.
pub fn print_meant(rt: &impl Print, tables: &[u32], q: Query) -> io::Result<()> {
    if check_tables::check(tables).is_ok() {
        print_place(rt, tables, "From", q.from)?;
        print_place(rt, tables, "To", q.to)?;
    }
    Ok(())
}

// So many of a kind, numbered from 0.
#[derive(Clone, Copy)]
struct Numbered<'a> {
    count: u32,
    kind: &'a str,
}

impl<'a> fmt::Display for Numbered<'a> {
    fn fmt<W: fmt::Write>(&self, f: &mut fmt::Formatter<W>) -> fmt::Result {
        let kind = self.kind;
        match self.count {
            0 => write!(f, "no {kind}s"),
            1 => write!(f, "{kind} 0"),
            count => write!(f, "{kind}s 0 to {}", count - 1),
        }
    }
}

// Whether a place exists; says so where it does not, and which there are.
fn exists(rt: &impl Print, tables: &[u32], name: &str, l: Location) -> io::Result<bool>
    requires { Accepted tables.now }
{
    let stops = Numbered {
        count: repository::places::stop_count(tables),
        kind: "stop",
    };
    let areas = Numbered {
        count: repository::places::area_count(tables),
        kind: "area",
    };
    let (kind, at, count) = match l {
        Location::Stop(s) => (stops.kind, s, stops.count),
        Location::Area(a) => (areas.kind, a, areas.count),
    };
    if at < count {
        return Ok(true);
    }
    println!(rt; ": {name} is {kind} {at}, and the tables have {stops} and {areas}")?;
    Ok(false)
}

// Which place does not exist: the first of the two.
pub fn print_missing(rt: &impl Print, tables: &[u32], q: Query) -> io::Result<()> {
    if check_tables::check(tables).is_ok() && exists(rt, tables, "FROM", q.from)? {
        exists(rt, tables, "TO", q.to)?;
    }
    Ok(())
}
