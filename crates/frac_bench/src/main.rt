//! Adds, multiplies and compares many numbers, so that the speed of their arithmetic can be measured from outside.
#![tactic(auto)]

use std::alloc::{AllocError, Global};
use std::cmp::Ordering;
use std::{env, io};
use zl_value::Frac;

/// How many numbers a round goes over.
const NUMBERS: u32 = 16384;

/// Numbers of `parts` to the whole, from -2000 of them to 2000, in an order without pattern.
fn numbers(alloc: Global, parts: i64) -> Result<Vec<Frac>, AllocError> {
    let mut numbers = Vec::new(alloc);
    let mut seed: u32 = 1;
    for _ in 0..NUMBERS {
        seed = seed.wrapping_mul(1664525).wrapping_add(1013904223);
        let num = (seed >> 8) as i128 % 4001 - 2000;
        if let Ok(number) = Frac::make(num, parts as i128) {
            numbers.push(number)?;
        }
    }
    Ok(numbers)
}

/// The sum of all numbers and of what was there before, begun anew where it is past the width.
fn add_all(before: Frac, numbers: &[Frac]) -> Frac {
    let mut sum = before;
    for number in numbers {
        sum = match sum.add(*number) {
            Ok(next) => next,
            Err(_) => *number,
        };
    }
    sum
}

/// Mixes the product of each two neighbours into `check`.
fn multiply_all(check: u64, first: Frac, numbers: &[Frac]) -> u64 {
    let mut check = check;
    let mut last = first;
    for number in numbers {
        if let Ok(product) = last.mul(*number) {
            check = mixed(check, product);
        }
        last = *number;
    }
    check
}

/// Counts the numbers that are greater than the one before.
fn compare_all(count: u64, first: Frac, numbers: &[Frac]) -> u64 {
    let mut count = count;
    let mut last = first;
    for number in numbers {
        if last.cmp(*number) == Ordering::Less {
            count = count.wrapping_add(1);
        }
        last = *number;
    }
    count
}

fn mixed(check: u64, number: Frac) -> u64 {
    check
        .rotate_left(1)
        .wrapping_add(number.num().unsigned_abs() ^ number.den().unsigned_abs())
}

fn sums(alloc: Global, rounds: u32) -> Result<u64, AllocError> {
    let numbers = numbers(alloc, 1000)?;
    let mut sum = match Frac::of_int(0) {
        Ok(zero) => zero,
        Err(_) => return Ok(0),
    };
    for _ in 0..rounds {
        sum = add_all(sum, &numbers);
    }
    Ok(mixed(0, sum))
}

fn products(alloc: Global, rounds: u32) -> Result<u64, AllocError> {
    let numbers = numbers(alloc, 8)?;
    let mut check = 0;
    for _ in 0..rounds {
        check = match numbers.first() {
            Some(first) => multiply_all(check, *first, &numbers),
            None => check,
        };
    }
    Ok(check)
}

fn comparisons(alloc: Global, rounds: u32) -> Result<u64, AllocError> {
    let numbers = numbers(alloc, 1000)?;
    let mut count = 0;
    for _ in 0..rounds {
        count = match numbers.first() {
            Some(first) => compare_all(count, *first, &numbers),
            None => count,
        };
    }
    Ok(count)
}

fn main(rt: HostRuntime) -> io::Result<()> {
    let alloc = rt.alloc();
    let words: Vec<String> = env::args(&rt)?.collect(alloc)?;
    let (work, rounds) = match words.as_slice() {
        [_, work, rounds] => (work.as_str(), rounds.parse().unwrap_or(1)),
        _ => ("all", 1),
    };
    if work == "sums" || work == "all" {
        let check = sums(alloc, rounds)?;
        println!(rt; "sums {check}")?;
    }
    if work == "products" || work == "all" {
        let check = products(alloc, rounds)?;
        println!(rt; "products {check}")?;
    }
    if work == "comparisons" || work == "all" {
        let check = comparisons(alloc, rounds)?;
        println!(rt; "comparisons {check}")?;
    }
    Ok(())
}
