//! Numbers and lines of text, put on a sheet.

ghost use Rattle.std.specs.Prelude.{◌≡◌, ◌+◌, ◌≤◌, [], ◌∷◌, ◌++◌, codes, decimal, drop, OnOk, OnErr};
ghost use Rattle.byte_ends.specs.Ends.{HasCause};
ghost use Rattle.text_sheets.specs.Lines.{numbers_line};
ghost use Rattle.text_sheets.specs.Sheets.{Puts};

use crate::sheet::Sheet;
use byte_ends::{Failed, Sink};
use itoa::{Buffer, write_digits};

/// Puts a number in decimal.
pub fn put_number<O: Sink>(sheet: &mut Sheet<O>, number: u64)
    ensures { Puts O.holds O.faults sheet.old sheet.new (decimal number) }
{
    let mut buffer = Buffer::new();
    sheet.put(buffer.format(number).as_bytes());
}

/// Puts a number in decimal, and a piece behind it.
pub fn put_number_and<O: Sink>(sheet: &mut Sheet<O>, number: u64, piece: &[u8])
    ensures { Puts O.holds O.faults sheet.old sheet.new (decimal number ++ piece.now) }
{
    put_number(sheet, number);
    sheet.put(piece);
}

// Writes a number and a space behind it before what stands in a line from a place on, and answers where it begins.
fn write_before(line: &mut [u8; 84], at: usize, number: u64) -> usize
    requires room { 21 ≤ at }
    requires within { at ≤ 84 }
    ensures written { drop result line.new ≡ decimal number ++ codes " " ++ drop at line.old }
    ensures room { at ≤ result + 21 }
    ensures within { result ≤ 84 }
{
    line[at - 1] = b' ';
    write_digits(number, line, at - 1)
}

// Writes a number and a line feed at the end of a line, and answers where it begins.
fn write_last(line: &mut [u8; 84], number: u64) -> usize
    ensures written { drop result line.new ≡ decimal number ++ codes "\n" }
    ensures room { 84 ≤ result + 21 }
    ensures within { result ≤ 84 }
{
    line[83] = b'\n';
    write_digits(number, line, 83)
}

// Puts what stands in a line from a place on.
fn put_from<O: Sink>(sheet: &mut Sheet<O>, line: &[u8; 84], first: usize)
    requires { first ≤ 84 }
    ensures { Puts O.holds O.faults sheet.old sheet.new (drop first line.now) }
{
    sheet.put(&line[first..]);
}

/// Puts three numbers, as a line.
pub fn put_three<O: Sink>(sheet: &mut Sheet<O>, a: u64, b: u64, c: u64)
    ensures { Puts O.holds O.faults sheet.old sheet.new (numbers_line (a ∷ b ∷ c ∷ [])) }
{
    let mut line = [0; 84];
    let third = write_last(&mut line, c);
    let second = write_before(&mut line, third, b);
    let first = write_before(&mut line, second, a);
    put_from(sheet, &line, first);
}

/// Puts four numbers, as a line.
pub fn put_four<O: Sink>(sheet: &mut Sheet<O>, a: u64, b: u64, c: u64, d: u64)
    ensures { Puts O.holds O.faults sheet.old sheet.new (numbers_line (a ∷ b ∷ c ∷ d ∷ [])) }
{
    let mut line = [0; 84];
    let fourth = write_last(&mut line, d);
    let third = write_before(&mut line, fourth, c);
    let second = write_before(&mut line, third, b);
    let first = write_before(&mut line, second, a);
    put_from(sheet, &line, first);
}

/// Puts the first line of a block: its title, and how many lines follow.
pub fn put_title<O: Sink>(sheet: &mut Sheet<O>, title: &[u8], count: usize)
    ensures { Puts O.holds O.faults sheet.old sheet.new (title.now ++ codes " " ++ decimal count ++ codes "\n") }
{
    sheet.put(title);
    sheet.put(b" ");
    put_number(sheet, count as u64);
    sheet.put(b"\n");
}
