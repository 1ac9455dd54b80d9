//! Worked calls: what public calls below the command answer where no case of the command reaches them. Lines, numbers,
//! sources, links, texts and file stores come first. Small problems follow, whose answers are known. Then come readers,
//! the table of a small state, the records of two runs, and all best groupings of small problems.
//!
//! With the word `files` what needs files follows: trees, leaves and texts of certificates, and then the adjacent pairs,
//! the lawful groups and all best groupings of North Carolina 2020. With the words LIMIT and FORM (`lists`, `masks` or
//! `wide`) it only counts the state's lawful groups of at most LIMIT counties, by sets of that form. The gate runs it
//! with the word `files`. It compares what is printed with `stdout`, which was written by hand from the rules or by
//! other programs: `bench/adjacency_pairs.sh` wrote the pairs, and `bench/best_list.py` the best groupings of the state.
#![tactic(auto)]

ghost use Rattle.std.specs.Prelude.{◌≤◌};

mod carolina;
mod certificates;
mod compared_counts;
mod file_store;
mod groups;
mod lines;
mod links;
mod lists;
mod numbers;
mod orders;
mod problems;
mod readers;
mod records;
mod regions;
mod room;
mod sets;
mod sketch;
mod sources;
mod states;
mod tables;
mod texts;

use anyhow::Result;
use place_sets::{CountySet, ListSet, MaskSet, WideSet};
use std::env;

/// Prints what calls over one form of sets answer, behind a line with the name `form`.
fn show_sets<C: CountySet>(rt: &HostRuntime, form: &str) -> Result<()>
    requires { 128 ≤ C.PLACES }
{
    println!(rt; "-- {form}")?;
    sets::show::<C>(rt)?;
    groups::show::<C>(rt)?;
    regions::show::<C>(rt)?;
    states::show::<C>(rt)
}

/// Prints what calls over each form of sets answer.
fn show_forms(rt: &HostRuntime) -> Result<()> {
    show_sets::<ListSet>(rt, "lists")?;
    show_sets::<MaskSet>(rt, "masks")?;
    show_sets::<WideSet>(rt, "wide masks")
}

/// Prints what calls on bytes, lines and files answer.
fn show_files(rt: &HostRuntime) -> Result<()> {
    lines::show(rt)?;
    numbers::show(rt)?;
    sources::show(rt)?;
    links::show(rt)?;
    texts::show(rt)?;
    file_store::show(rt)
}

/// Prints what calls on problems, orders, sets and states answer.
fn show_problems(rt: &HostRuntime) -> Result<()> {
    problems::show(rt)?;
    compared_counts::show(rt)?;
    orders::show(rt)?;
    show_forms(rt)?;
    sets::show_ends(rt)?;
    states::show_rounds(rt)
}

/// Prints all that needs no file.
fn show_all(rt: &HostRuntime) -> Result<()> {
    show_files(rt)?;
    show_problems(rt)?;
    readers::show(rt)?;
    tables::show(rt)?;
    records::show(rt)?;
    lists::show(rt)
}

fn main(rt: HostRuntime) -> Result<()> {
    let words: Vec<String> = env::args(&rt)?.collect(rt.alloc())?;
    if let Some(form) = words.get(2) {
        let limit = words[1].parse::<u16>()?;
        return carolina::show_form(&rt, limit, form);
    }
    show_all(&rt)?;
    if words.len() > 1 {
        certificates::show(&rt)?;
        carolina::show(&rt)?;
    }
    Ok(())
}
