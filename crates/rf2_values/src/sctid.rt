//! SNOMED CT identifiers (SCTIDs), with the check digit of Verhoeff.
//!
//! The form is that of the SNOMED CT Release File Specifications, in its sections "SCTID
//! Representation", "SCTID Constraints", "Check-digit" and "Partition Identifier".

ghost use Rattle.std.specs.Prelude.{◌≡◌, ℕ, ◌<◌, ◌≤◌, Option, Some, IfSome, SomeIff, IsTrue};
ghost use Rattle.std.specs.Prelude.{decimal, reverse, ◌+◌, ◌*◌, ◌/◌, ◌^◌};
ghost use Rattle.std.specs.Int.Digits.{digits_of};
ghost use Rattle.rf2_values.specs.Sctid.{IsSctid, check_digits, check_from, class_of};

use crate::number;
use std::marker::Model;

/// Verhoeff's multiplication table: the dihedral group of ten elements.
const PRODUCTS: [[u8; 10]; 10] = [
    [0, 1, 2, 3, 4, 5, 6, 7, 8, 9],
    [1, 2, 3, 4, 0, 6, 7, 8, 9, 5],
    [2, 3, 4, 0, 1, 7, 8, 9, 5, 6],
    [3, 4, 0, 1, 2, 8, 9, 5, 6, 7],
    [4, 0, 1, 2, 3, 9, 5, 6, 7, 8],
    [5, 9, 8, 7, 6, 0, 4, 3, 2, 1],
    [6, 5, 9, 8, 7, 1, 0, 4, 3, 2],
    [7, 6, 5, 9, 8, 2, 1, 0, 4, 3],
    [8, 7, 6, 5, 9, 3, 2, 1, 0, 4],
    [9, 8, 7, 6, 5, 4, 3, 2, 1, 0],
];

/// Verhoeff's permutations at the positions 0, 2, 4 and 6, counted from the right: what each digit
/// is replaced by.
const TURNS: [[u8; 10]; 4] = [
    [0, 1, 2, 3, 4, 5, 6, 7, 8, 9],
    [5, 8, 0, 3, 7, 9, 6, 1, 4, 2],
    [9, 4, 5, 3, 1, 2, 6, 8, 7, 0],
    [2, 7, 9, 3, 8, 0, 6, 4, 1, 5],
];

/// The product of the replacements of the two digits of a number below 100, at each of four pairs
/// of positions: of the right digit at the positions 0, 2, 4 and 6, of the left one at 1, 3, 5 and
/// 7.
const PAIRS: [[u8; 100]; 4] = [
    [
        1, 2, 3, 4, 0, 9, 5, 6, 7, 8, 5, 6, 7, 8, 9, 0, 1, 2, 3, 4, 7, 8, 9, 5, 6, 3, 4, 0, 1, 2,
        6, 7, 8, 9, 5, 4, 0, 1, 2, 3, 2, 3, 4, 0, 1, 8, 9, 5, 6, 7, 8, 9, 5, 6, 7, 2, 3, 4, 0, 1,
        3, 4, 0, 1, 2, 7, 8, 9, 5, 6, 0, 1, 2, 3, 4, 5, 6, 7, 8, 9, 9, 5, 6, 7, 8, 1, 2, 3, 4, 0,
        4, 0, 1, 2, 3, 6, 7, 8, 9, 5,
    ],
    [
        2, 0, 8, 6, 4, 1, 3, 9, 7, 5, 1, 4, 9, 7, 3, 0, 2, 5, 8, 6, 9, 7, 1, 4, 6, 8, 5, 2, 0, 3,
        4, 2, 6, 9, 1, 3, 0, 7, 5, 8, 5, 8, 0, 3, 7, 9, 6, 1, 4, 2, 6, 9, 4, 2, 8, 5, 7, 0, 3, 1,
        7, 5, 3, 1, 9, 6, 8, 4, 2, 0, 0, 3, 5, 8, 2, 4, 1, 6, 9, 7, 8, 6, 2, 0, 5, 7, 9, 3, 1, 4,
        3, 1, 7, 5, 0, 2, 4, 8, 6, 9,
    ],
    [
        5, 3, 6, 2, 0, 1, 7, 9, 8, 4, 7, 1, 8, 0, 3, 4, 9, 6, 5, 2, 1, 7, 2, 6, 9, 5, 3, 0, 4, 8,
        3, 5, 4, 9, 7, 8, 0, 2, 1, 6, 4, 9, 0, 8, 6, 7, 1, 3, 2, 5, 2, 6, 3, 5, 8, 9, 4, 1, 0, 7,
        6, 2, 7, 1, 4, 0, 8, 5, 9, 3, 0, 8, 1, 7, 5, 6, 2, 4, 3, 9, 9, 4, 5, 3, 1, 2, 6, 8, 7, 0,
        8, 0, 9, 4, 2, 3, 5, 7, 6, 1,
    ],
    [
        9, 0, 2, 5, 1, 7, 4, 6, 8, 3, 2, 7, 9, 3, 8, 0, 6, 4, 1, 5, 1, 8, 5, 2, 9, 4, 7, 3, 0, 6,
        8, 1, 3, 9, 2, 6, 0, 5, 7, 4, 6, 3, 0, 7, 4, 9, 2, 8, 5, 1, 3, 6, 8, 4, 7, 1, 5, 0, 2, 9,
        0, 9, 6, 1, 5, 3, 8, 2, 4, 7, 4, 5, 7, 0, 6, 2, 9, 1, 3, 8, 7, 2, 4, 8, 3, 5, 1, 9, 6, 0,
        5, 4, 1, 6, 0, 8, 3, 7, 9, 2,
    ],
];

/// What kind of component an identifier identifies, according to its partition: the two digits
/// before the check digit.
#[derive(Clone, Copy, Debug, PartialEq, Eq)]
pub enum Class {
    Concept,
    Description,
    Relationship,
}

/// A SNOMED CT identifier: 6 to 18 decimal digits, the last of which is Verhoeff's check digit.
#[derive(Clone, Copy, Debug, PartialEq, Eq, PartialOrd, Ord)]
pub struct Sctid {
    value: u64,
}

impl Model for Sctid {
    ghost Value = { ℕ };

    ghost view = { λ s. s.value };

    ghost invariant = { λ s. IsSctid s.value };

    ghost inverse = { λ n. record { value = n } };
}

/// Verhoeff's check after the digits of a number, if it was `before` ahead of them and `pairs` pairs
/// of digits stand to their right.
fn check_after(before: u8, pairs: usize, digits: u64) -> u8
    requires small { before < 10 }
    requires few { pairs + digits < 2 ^ 64 }
    ensures { result ≡ check_from (2 * pairs) before (reverse (digits_of 10 digits)) }
{
    let mut check = before;
    let mut rest = digits;
    let mut pair = pairs;
    // The product is associative, and so two digits need only one step.
    while rest >= 10 {
        let turned = PAIRS[pair % 4][(rest % 100) as usize];
        check = PRODUCTS[check as usize][turned as usize];
        rest /= 100;
        pair += 1;
    }
    if rest == 0 {
        return check;
    }
    let turned = TURNS[pair % 4][rest as usize];
    PRODUCTS[check as usize][turned as usize]
}

/// Verhoeff's check of the last eight digits of a number that has more. Since the product is
/// associative, no pair of digits needs to wait for another one.
fn check_last_eight(number: u64) -> u8
    ensures small { result < 10 }
    ensures rest { 10 ^ 8 ≤ number
        → check_from 8 result (reverse (digits_of 10 (number / 10 ^ 8))) ≡ check_digits number }
{
    let right = number % 10_000;
    let left = number / 10_000 % 10_000;
    let first = PAIRS[0][(right % 100) as usize];
    let second = PAIRS[1][(right / 100) as usize];
    let third = PAIRS[2][(left % 100) as usize];
    let fourth = PAIRS[3][(left / 100) as usize];
    let right = PRODUCTS[first as usize][second as usize];
    let left = PRODUCTS[third as usize][fourth as usize];
    PRODUCTS[right as usize][left as usize]
}

/// Verhoeff's check of a number's digits: 0 if the last digit is right.
fn check(number: u64) -> u8
    ensures { result ≡ check_digits number }
{
    if number < 100_000_000 {
        check_after(0, 0, number)
    } else {
        check_after(check_last_eight(number), 4, number / 100_000_000)
    }
}

/// Whether the number is the identifier of a module, a type or another value of SNOMED CT's
/// metadata that occurs in many rows. The prover has checked their digits.
fn is_metadata(value: u64) -> bool
    ensures { IsTrue result → IsSctid value }
{
    // (Nearly all other identifiers are below all of these.)
    value >= 900_000_000_000_000_000
        && matches!(
            value,
            900_000_000_000_003_001
                | 900_000_000_000_010_007
                | 900_000_000_000_011_006
                | 900_000_000_000_012_004
                | 900_000_000_000_013_009
                | 900_000_000_000_017_005
                | 900_000_000_000_020_002
                | 900_000_000_000_073_002
                | 900_000_000_000_074_008
                | 900_000_000_000_207_008
                | 900_000_000_000_227_009
                | 900_000_000_000_448_009
                | 900_000_000_000_451_002
                | 900_000_000_000_523_009
                | 900_000_000_000_526_001
                | 900_000_000_000_527_005
        )
}

impl Sctid {
    /// The identifier with this number, in any partition.
    pub fn of(value: u64) -> Option<Sctid>
        // promise: ids_dates_and_texts_are_checked
        ensures { SomeIff result (IsSctid value) value }
    {
        if is_metadata(value) {
            return Some(Sctid { value });
        }
        if value >= 100_000 && value < 1_000_000_000_000_000_000 && check(value) == 0 {
            Some(Sctid { value })
        } else {
            None
        }
    }

    /// The identifier that the text spells, without sign and leading zero.
    pub fn parse(text: &[u8]) -> Option<Sctid>
        // promise: ids_dates_and_texts_are_checked
        ensures found { IfSome result (λ n. IsSctid n × (text.now ≡ decimal n)) }
        // promise: ids_dates_and_texts_are_checked
        ensures only { (n : ℕ) → IsSctid n → text.now ≡ decimal n → result ≡ Some n }
    {
        Sctid::of(number::parse(text)?)
    }

    /// What it identifies, if its partition is one of 00, 01, 02 (short form) and 10, 11, 12 (long
    /// form, with a namespace).
    pub fn class(self) -> Option<Class>
        ensures { result ≡ class_of self }
    {
        match self.value / 10 % 100 {
            0 | 10 => Some(Class::Concept),
            1 | 11 => Some(Class::Description),
            2 | 12 => Some(Class::Relationship),
            _ => None,
        }
    }

    /// Its digits as a number, including the check digit.
    pub fn value(self) -> u64
        ensures value { result ≡ self }
        ensures is_sctid { IsSctid result }
    {
        self.value
    }
}
