//! Calls the exact predicates on drawn points and prints the sums of what they answer, for measuring.
//!
//! The words are two counts: how many orientations, and how many in-sphere polynomials. It prints a line for each
//! count, and never a time: `bench/predicates` of the repository takes that from outside.
#![tactic(auto)]

ghost use Rattle.std.specs.Prelude.{◌≤◌, pos, ◌≤ℤ◌, ◌<ℤ◌};

use exact_orient::orient;
use exact_sphere::sphere;
use point_order::Point;
use std::{env, io};

/// How many points are drawn: a call takes up to five in a row, the first of them one of 1024.
const POINTS: usize = 1028;

// The linear congruential generator of Knuth's MMIX.
fn next(state: u64) -> u64 {
    state
        .wrapping_mul(6364136223846793005)
        .wrapping_add(1442695040888963407)
}

// A coordinate, from the upper bits.
fn coordinate(state: u64) -> i64
    ensures low { pos 0 ≤ℤ result }
    ensures high { result <ℤ pos 16384 }
{
    ((state >> 33) % 16384) as i64
}

// The place of the first point of a call.
fn place(state: u64) -> usize
    ensures { result ≤ 1023 }
{
    ((state >> 33) % 1024) as usize
}

fn draw() -> [Point; POINTS] {
    let mut points = [Point::new(0, 0, 0).unwrap(); POINTS];
    let mut state: u64 = 12345;
    for point in points.iter_mut() {
        let first = next(state);
        let second = next(first);
        state = next(second);
        *point = Point::new(coordinate(first), coordinate(second), coordinate(state)).unwrap();
    }
    points
}

fn sum_of_orientations(points: &[Point; POINTS], count: u32) -> i64 {
    let mut sum: i64 = 0;
    let mut state: u64 = 99;
    for _ in 0..count {
        state = next(state);
        let i = place(state);
        sum = sum.wrapping_add(orient(points[i], points[i + 1], points[i + 2], points[i + 3]));
    }
    sum
}

fn sum_of_spheres(points: &[Point; POINTS], count: u32) -> i128 {
    let mut sum: i128 = 0;
    let mut state: u64 = 99;
    for _ in 0..count {
        state = next(state);
        let i = place(state);
        sum = sum.wrapping_add(sphere(
            points[i],
            points[i + 1],
            points[i + 2],
            points[i + 3],
            points[i + 4],
        ));
    }
    sum
}

fn count_of(word: Option<String>) -> io::Result<u32> {
    let word = word.ok_or(io::ErrorKind::InvalidInput)?;
    word.as_str()
        .parse::<u32>()
        .map_err(|_| io::ErrorKind::InvalidInput.into())
}

fn main(rt: HostRuntime) -> io::Result<()> {
    let mut words = env::args(&rt)?;
    let _name = words.next();
    let orientations = count_of(words.next())?;
    let spheres = count_of(words.next())?;
    let points = draw();
    println!(rt;
        "orient {orientations} {}",
        sum_of_orientations(&points, orientations)
    )?;
    println!(rt; "sphere {spheres} {}", sum_of_spheres(&points, spheres))?;
    Ok(())
}
