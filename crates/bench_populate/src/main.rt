//! A benchmark: makes one table again and again. `bench/populate.sh` times it beside a C program of the common algorithm.
//!
//! Arguments: how many names (`b1`, `b2`, ..), how many times, and 1 where the names have weights from 1 to 16, which their hashes
//! give. Prints the sum over the slots of slot times owner, which shows that the table was made.
#![tactic(auto)]

ghost use Rattle.std.specs.Prelude.{◌≡◌, ◌≤◌, ◌<◌, All, IfOk, length};

use backend_names::{Name, TableSize, Weight};
use hash_laws::{FlowHash, Fnv};
use maglev_table::{Permutation, Table, populate};
use std::alloc::{AllocError, Global};
use std::env;

// The weight of a name: that which its hash gives, or one.
fn weight_of(name: &Name, weighed: bool) -> Weight {
    let turns = (Fnv.hash(b'f', name.as_bytes()) % 16) as u8 + 1;
    match Weight::new(turns) {
        Some(weight) if weighed => weight,
        _ => Weight::one(),
    }
}

fn weights_of(alloc: Global, names: &[Name], weighed: bool) -> Result<Vec<Weight>, AllocError>
    ensures { IfOk result (λ v. length v.items ≡ length names.now) }
{
    let mut weights = Vec::with_capacity(alloc, names.len())?;
    for name in names {
        weights.push(weight_of(name, weighed))?;
    }
    Ok(weights)
}

fn names_of(alloc: Global, count: u32) -> Result<Vec<Name>, AllocError> {
    let mut names = Vec::new(alloc);
    for number in 1..=count {
        let text = format!(in alloc; "b{number}")?;
        if let Some(name) = Name::new(text.as_bytes()) {
            names.push(name)?;
        }
    }
    Ok(names)
}

fn lists_of(alloc: Global, size: TableSize, names: &[Name]) -> Result<Vec<Permutation>, AllocError>
    ensures sized { IfOk result (λ v. All (λ p. p.size ≡ size) v.items) }
    ensures each { IfOk result (λ v. length v.items ≡ length names.now) }
{
    let mut lists = Vec::with_capacity(alloc, names.len())?;
    for name in names {
        lists.push(Permutation::of_name(&Fnv, name, size))?;
    }
    Ok(lists)
}

fn check_sum(table: &Table, slots: u32) -> u64
    requires { slots ≤ length table.now.owners }
{
    let mut sum = 0u64;
    for slot in 0..slots {
        sum = sum.wrapping_add(u64::from(slot) * u64::from(table.slot(slot)));
    }
    sum
}

fn table_of(alloc: Global, count: u32, times: u32, weighed: bool) -> anyhow::Result<u64> {
    let Some(size) = TableSize::new(65537) else {
        return Ok(0);
    };
    let names = names_of(alloc, count)?;
    let lists = lists_of(alloc, size, names.as_slice())?;
    let weights = weights_of(alloc, names.as_slice(), weighed)?;
    let mut sum = 0;
    for _ in 0..times {
        match populate(alloc, size, lists.as_slice(), weights.as_slice()) {
            Ok(table) => sum = check_sum(&table, size.slots()),
            Err(_) => return Ok(0),
        }
    }
    Ok(sum)
}

fn number_at(words: &[String], place: usize, default: u32) -> u32 {
    match words.get(place) {
        Some(word) => word.as_str().parse::<u32>().unwrap_or(default),
        None => default,
    }
}

fn main(rt: HostRuntime) -> anyhow::Result<()> {
    let alloc = rt.alloc();
    let words: Vec<String> = env::args(&rt)?.collect(alloc)?;
    let count = number_at(words.as_slice(), 1, 3);
    let times = number_at(words.as_slice(), 2, 1);
    let weighed = number_at(words.as_slice(), 3, 0) == 1;
    let sum = table_of(alloc, count, times, weighed)?;
    println!(rt; "{sum}")?;
    Ok(())
}
