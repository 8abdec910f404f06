//! Operations on strided intervals.

ghost use Rattle.std.specs.Prelude.{◌≡◌, ◌≤◌, ◌<◌, ◌^◌, ◌*◌, ◌+◌, ◌-◌, ◌/◌, ◌%◌, IfOk, IsOk, IfSome, nat_lt};
ghost use Rattle.word_operations.specs.Op2.{places};
ghost use Rattle.word_operations.specs.Width.{IsWidth};
ghost use Rattle.base_trait.specs.Laws.{IsExtension};
ghost use Rattle.base_interval.specs.Signs.{crosses, is_low};
ghost use Rattle.base_strides.specs.Rows.{add_row, and_high, and_row, and_with, as_intervals, clear_low, cleared, exponent, mul_row, mul_step, narrow, op1_row, op2_row, range, rot_row, sext_row, shl_by, shl_row, shr_by, shr_row, shr_s_row, sub_row, trunc_row, wrapped};
ghost use Rattle.base_strides.specs.Stretch.{divides, one, stretch};
ghost use Rattle.base_strides.specs.Words.{IsEnds};

use super::divisor::{divides, gcd, gcd_of_words};
use super::stretch::Stretch;
use super::width::{count, greatest};
use base_interval::{Interval, Range};
use base_trait::Base;
use std::alloc::{AllocError as NoMemory, Global};
use word_operations::{BinaryOperation, UnaryOperation};

/// The numbers of the class of `low` modulo `step`, from `low` to `high`, taken modulo `m`.
pub(crate) fn wrapped(m: u128, low: u128, step: u128, high: u128) -> Stretch
    requires some { 0 < m }
    requires fits { m ≤ 2 ^ 64 }
    requires order { low ≤ high }
    ensures { result ≡ wrapped m low step high }
{
    if low / m == high / m {
        Stretch::narrow(remainder(low, m), step, remainder(high, m))
    } else {
        by_class(m, low, gcd(step, m))
    }
}

/// The numbers below `m` of the class of `low` modulo a divisor of `m`.
fn by_class(m: u128, low: u128, step: u128) -> Stretch
    requires some { 0 < step }
    requires less { step ≤ m }
    requires fits { m ≤ 2 ^ 64 }
    ensures { result ≡ narrow (low % step) step (m - 1) }
{
    Stretch::narrow(remainder(low, step), step, (m - 1) as u64)
}

fn remainder(n: u128, m: u128) -> u64
    requires some { 0 < m }
    requires fits { m ≤ 2 ^ 64 }
    ensures value { result ≡ n % m }
    ensures less { result < m }
{
    (n % m) as u64
}

pub(crate) fn add(w: u32, x: Stretch, y: Stretch) -> Stretch
    requires width { IsWidth w }
    requires left { IsEnds w x }
    requires right { IsEnds w y }
    ensures { result ≡ add_row w x y }
{
    wrapped(
        count(w),
        x.lo as u128 + y.lo as u128,
        gcd_of_words(x.step, y.step) as u128,
        x.hi as u128 + y.hi as u128,
    )
}

pub(crate) fn sub(w: u32, x: Stretch, y: Stretch) -> Stretch
    requires width { IsWidth w }
    requires left { IsEnds w x }
    requires right { IsEnds w y }
    ensures { result ≡ sub_row w x y }
{
    let m = count(w);
    wrapped(
        m,
        x.lo as u128 + m - y.hi as u128,
        gcd_of_words(x.step, y.step) as u128,
        x.hi as u128 + m - y.lo as u128,
    )
}

fn mul_step(x: Stretch, y: Stretch) -> u128
    ensures { result ≡ mul_step x y }
{
    let left = x.step as u128 * y.lo as u128;
    let right = y.step as u128 * x.lo as u128;
    let both = x.step as u128 * y.step as u128;
    gcd(gcd(left, right), both)
}

pub(crate) fn mul(w: u32, x: Stretch, y: Stretch) -> Stretch
    requires width { IsWidth w }
    requires left { IsEnds w x }
    requires right { IsEnds w y }
    ensures { result ≡ mul_row w x y }
{
    let low = x.lo as u128 * y.lo as u128;
    let high = x.hi as u128 * y.hi as u128;
    wrapped(count(w), low, mul_step(x, y), high)
}

fn scaled(n: u64, places: u32) -> u128
    requires { places ≤ 64 }
    ensures { result ≡ n * 2 ^ places }
{
    (n as u128) << places
}

pub(crate) fn shl_by(w: u32, x: Stretch, places: u32) -> Stretch
    requires width { IsWidth w }
    requires word { IsEnds w x }
    requires places { places ≤ 64 }
    ensures { result ≡ shl_by w x places }
{
    wrapped(
        count(w),
        scaled(x.lo, places),
        scaled(x.step, places),
        scaled(x.hi, places),
    )
}

pub(crate) fn op1(op: UnaryOperation, w: u32, x: Stretch) -> Stretch
    requires width { IsWidth w }
    requires word { IsEnds w x }
    ensures { result ≡ op1_row op w x }
{
    match op {
        UnaryOperation::Neg => neg(w, x),
        UnaryOperation::Not => not(w, x),
    }
}

fn neg(w: u32, x: Stretch) -> Stretch
    requires width { IsWidth w }
    requires word { IsEnds w x }
    ensures { result ≡ wrapped (2 ^ w) (2 ^ w - x.hi) x.step (2 ^ w - x.lo) }
{
    let m = count(w);
    wrapped(m, m - x.hi as u128, x.step as u128, m - x.lo as u128)
}

fn not(w: u32, x: Stretch) -> Stretch
    requires width { IsWidth w }
    requires word { IsEnds w x }
    ensures { result ≡ stretch (2 ^ w - 1 - x.hi) x.step (2 ^ w - 1 - x.lo) }
{
    let top = greatest(w);
    Stretch::new(top - x.hi, x.step, top - x.lo)
}

pub(crate) fn trunc(to: u32, x: Stretch) -> Stretch
    requires width { IsWidth to }
    requires order { x.lo ≤ x.hi }
    ensures { result ≡ trunc_row to x }
{
    wrapped(count(to), x.lo as u128, x.step as u128, x.hi as u128)
}

/// The same operation of intervals, with every number between the ends.
pub(crate) fn as_intervals(
    alloc: Global,
    op: BinaryOperation,
    w: u32,
    x: Stretch,
    y: Stretch,
) -> Result<Stretch, NoMemory>
    requires width { IsWidth w }
    requires left { IsEnds w x }
    requires right { IsEnds w y }
    ensures value { IfOk result (λ r. r ≡ as_intervals op w x y) }
    ensures ok { IsOk result }
{
    let left = Range { lo: x.lo, hi: x.hi };
    let right = Range { lo: y.lo, hi: y.hi };
    let r = Interval::op2(alloc, &(), op, w, &left, &right)?;
    Ok(Stretch::new(r.lo, 1, r.hi))
}

/// 2^places.
fn power(places: u32) -> u128
    requires { places ≤ 64 }
    ensures value { result ≡ 2 ^ places }
    ensures some { 0 < result }
    ensures fits { result ≤ 2 ^ 64 }
{
    1u128 << places
}

/// The numbers without their `places` lowest bits, moved to the right.
fn shifted(n: u64, places: u32) -> u64
    requires { places ≤ 64 }
    ensures { result ≡ n / 2 ^ places }
{
    (n as u128 / power(places)) as u64
}

/// Whether 2^places divides the number.
fn is_multiple(n: u64, places: u32) -> bool
    requires { places ≤ 64 }
    ensures { result ≡ divides (2 ^ places) n }
{
    n as u128 % power(places) == 0
}

pub(crate) fn shr_by(x: Stretch, places: u32) -> Stretch
    requires order { x.lo ≤ x.hi }
    requires places { places ≤ 64 }
    ensures { result ≡ shr_by x places }
{
    let step = if is_multiple(x.step, places) {
        shifted(x.step, places)
    } else {
        1
    };
    Stretch::new(shifted(x.lo, places), step, shifted(x.hi, places))
}

fn cleared(n: u64, places: u32) -> u64
    requires { places ≤ 64 }
    ensures { result ≡ cleared places n }
{
    let m = power(places);
    (n as u128 / m * m) as u64
}

pub(crate) fn clear_low(x: Stretch, places: u32) -> Stretch
    requires order { x.lo ≤ x.hi }
    requires places { places ≤ 64 }
    ensures { result ≡ clear_low x places }
{
    let step = if is_multiple(x.step, places) {
        x.step as u128
    } else {
        power(places)
    };
    Stretch::narrow(cleared(x.lo, places), step, cleared(x.hi, places))
}

/// The exponent, of at most `k`, of a power of two.
fn exponent(k: u32, n: u128) -> Option<u32>
    requires { k ≤ 64 }
    ensures value { result ≡ exponent k n }
    ensures few { IfSome result (λ j. j ≤ 64) }
{
    if k == 0 {
        return if n == 1 { Some(0) } else { None };
    }
    if n == power(k) {
        return Some(k);
    }
    exponent(k - 1, n)
}

/// How many places a shift by the number moves the bits.
fn places(w: u32, n: u64) -> u32
    requires { IsWidth w }
    ensures value { result ≡ places w n }
    ensures few { result ≤ 64 }
{
    if n < w as u64 { n as u32 } else { w }
}

pub(crate) fn shl(alloc: Global, w: u32, x: Stretch, y: Stretch) -> Result<Stretch, NoMemory>
    requires width { IsWidth w }
    requires left { IsEnds w x }
    requires right { IsEnds w y }
    ensures value { IfOk result (λ r. r ≡ shl_row w x y) }
    ensures ok { IsOk result }
{
    if y.is_one() {
        Ok(shl_by(w, x, places(w, y.lo)))
    } else {
        as_intervals(alloc, BinaryOperation::Shl, w, x, y)
    }
}

pub(crate) fn shr(alloc: Global, w: u32, x: Stretch, y: Stretch) -> Result<Stretch, NoMemory>
    requires width { IsWidth w }
    requires left { IsEnds w x }
    requires right { IsEnds w y }
    ensures value { IfOk result (λ r. r ≡ shr_row w x y) }
    ensures ok { IsOk result }
{
    if y.is_one() {
        Ok(shr_by(x, places(w, y.lo)))
    } else {
        as_intervals(alloc, BinaryOperation::ShrU, w, x, y)
    }
}

/// Whether no number has its sign bit set.
fn is_low(w: u32, x: Stretch) -> bool
    requires { IsWidth w }
    ensures { result ≡ is_low w (range x) }
{
    2 * (x.hi as u128) < count(w)
}

pub(crate) fn shr_s(alloc: Global, w: u32, x: Stretch, y: Stretch) -> Result<Stretch, NoMemory>
    requires width { IsWidth w }
    requires left { IsEnds w x }
    requires right { IsEnds w y }
    ensures value { IfOk result (λ r. r ≡ shr_s_row w x y) }
    ensures ok { IsOk result }
{
    if is_low(w, x) {
        shr(alloc, w, x, y)
    } else {
        as_intervals(alloc, BinaryOperation::ShrS, w, x, y)
    }
}

/// How many places a rotation by the number turns the bits.
fn turn(w: u32, n: u64) -> u32
    requires { IsWidth w }
    ensures value { result ≡ n % w }
    ensures few { result ≤ 64 }
{
    (n % w as u64) as u32
}

/// Whether a shift to the left by so many places moves no bit out of the word.
fn has_room(w: u32, x: Stretch, places: u32) -> bool
    requires width { IsWidth w }
    requires places { places ≤ 64 }
    ensures { result ≡ nat_lt (x.hi * 2 ^ places) (2 ^ w) }
{
    scaled(x.hi, places) < count(w)
}

pub(crate) fn rot(alloc: Global, w: u32, x: Stretch, y: Stretch) -> Result<Stretch, NoMemory>
    requires width { IsWidth w }
    requires left { IsEnds w x }
    requires right { IsEnds w y }
    ensures value { IfOk result (λ r. r ≡ rot_row w x y) }
    ensures ok { IsOk result }
{
    let places = turn(w, y.lo);
    if y.is_one() && has_room(w, x, places) {
        Ok(shl_by(w, x, places))
    } else {
        as_intervals(alloc, BinaryOperation::RotL, w, x, y)
    }
}

fn and_high(alloc: Global, w: u32, x: Stretch, c: u64) -> Result<Stretch, NoMemory>
    requires width { IsWidth w }
    requires word { IsEnds w x }
    requires mask { c < 2 ^ w }
    ensures value { IfOk result (λ r. r ≡ and_high (exponent w (2 ^ w - c)) w x c) }
    ensures ok { IsOk result }
{
    match exponent(w, count(w) - c as u128) {
        Some(k) => Ok(clear_low(x, k)),
        None => as_intervals(alloc, BinaryOperation::And, w, x, Stretch::one(c)),
    }
}

pub(crate) fn and_with(alloc: Global, w: u32, x: Stretch, c: u64) -> Result<Stretch, NoMemory>
    requires width { IsWidth w }
    requires word { IsEnds w x }
    requires mask { c < 2 ^ w }
    ensures value { IfOk result (λ r. r ≡ and_with w x c) }
    ensures ok { IsOk result }
{
    match exponent(w, c as u128 + 1) {
        Some(k) => Ok(wrapped(power(k), x.lo as u128, x.step as u128, x.hi as u128)),
        None => and_high(alloc, w, x, c),
    }
}

pub(crate) fn and(alloc: Global, w: u32, x: Stretch, y: Stretch) -> Result<Stretch, NoMemory>
    requires width { IsWidth w }
    requires left { IsEnds w x }
    requires right { IsEnds w y }
    ensures value { IfOk result (λ r. r ≡ and_row w x y) }
    ensures ok { IsOk result }
{
    if y.is_one() {
        and_with(alloc, w, x, y.lo)
    } else if x.is_one() {
        and_with(alloc, w, y, x.lo)
    } else {
        as_intervals(alloc, BinaryOperation::And, w, x, y)
    }
}

/// An operation on two stretches.
pub(crate) fn op2(
    alloc: Global,
    op: BinaryOperation,
    w: u32,
    x: Stretch,
    y: Stretch,
) -> Result<Stretch, NoMemory>
    requires width { IsWidth w }
    requires left { IsEnds w x }
    requires right { IsEnds w y }
    ensures value { IfOk result (λ r. r ≡ op2_row op w x y) }
    ensures ok { IsOk result }
{
    match op {
        BinaryOperation::Add => Ok(add(w, x, y)),
        BinaryOperation::Sub => Ok(sub(w, x, y)),
        BinaryOperation::Mul => Ok(mul(w, x, y)),
        BinaryOperation::And => and(alloc, w, x, y),
        BinaryOperation::Shl => shl(alloc, w, x, y),
        BinaryOperation::ShrU => shr(alloc, w, x, y),
        BinaryOperation::ShrS => shr_s(alloc, w, x, y),
        BinaryOperation::RotL => rot(alloc, w, x, y),
        _ => as_intervals(alloc, op, w, x, y),
    }
}

/// Whether words with and without the sign bit may stand between the ends.
fn crosses(w: u32, x: Stretch) -> bool
    requires { IsWidth w }
    ensures { result ≡ crosses w (range x) }
{
    2 * (x.lo as u128) < count(w) && count(w) <= 2 * (x.hi as u128)
}

/// Sign extension: with one sign bit at both ends the step stays.
pub(crate) fn sext(from: u32, to: u32, x: Stretch) -> Stretch
    requires widths { IsExtension from to }
    requires word { IsEnds from x }
    ensures { result ≡ sext_row from to x }
{
    let step = if crosses(from, x) { 1 } else { x.step };
    Stretch::new(
        word_operations::sext(from, to, x.lo),
        step,
        word_operations::sext(from, to, x.hi),
    )
}
