// Packets and lines from received points that begin anywhere, turned any way, by a state of bytes that the firmware keeps, as functions for C.
// Their declarations are in include/dvbs.h, docs/STATES.md lists the layout of the state, and docs/ACQUISITION.md says what is decided and told.
#![tactic(auto)]

ghost use Rattle.std.specs.Prelude.{◌≡◌, true, map, ◌≤◌, ◌<◌, min, length, take, IfSome};
ghost use Rattle.common.specs.Lists.{All};
ghost use Rattle.answer.specs.Number.{answered};
ghost use Rattle.branch_metrics.specs.Cost.{received_of};
ghost use Rattle.branch_metrics.specs.SoftPairs.{symbol_pair};
ghost use Rattle.lock_stream.specs.Source.{came_of};
ghost use Rattle.lock_stream.specs.Stream.{StreamReady};
ghost use Rattle.lock_state.specs.State.{in_range, Sized};
ghost use Rattle.dvbs_lock_stream.specs.Calls.{fresh_number, fresh_bytes, points_due, end_due, short_room, GivesTold, ClosesLines, LeavesStep, LeavesEnd, FeedsLock, EndsLock};

use answer::Refusal;
use branch_metrics::soft_decision::soft_pairs;
use common::put;
use lock_state::{STATE_LENGTH, is_in_range, read_state, write_state};
use lock_stream::LockStream;
use reader::is_sound;

// Makes the state of a fresh lock of a rate, 5 being any: the number of the answer.
#[unsafe(no_mangle)]
pub extern "C" fn dvbs_lock_fresh(state: &mut [u8], rate: u8) -> u8
    ensures { (result ≡ fresh_number state.old rate)
        × (state.new ≡ fresh_bytes state.old rate) }
{
    if state.len() != STATE_LENGTH {
        let answer = Refusal::StateLength;
        return answer.number();
    }
    if rate >= 6 {
        let answer = Refusal::UnknownRate;
        return answer.number();
    }
    let stream = LockStream::new(false, rate);
    write_state(stream, state);
    0
}

// Whether there is less room than a step may take: for packets, for text, and for two numbers.
fn is_short(packets: usize, text: usize, counts: usize) -> bool
    ensures { result ≡ short_room packets text counts }
{
    if packets < 1504 {
        return true;
    }
    if text < 2048 {
        return true;
    }
    counts < 2
}

// The answer that is due to points, where so many came before them and there is room or not.
fn points_due(came: u64, is: &[f32], qs: &[f32], lost: &[u8], short: bool) -> Result<(), Refusal>
    ensures { answered result ≡ points_due came is.now qs.now lost.now short }
{
    if !is_sound(is, qs, lost) {
        return Err(Refusal::SoftLists);
    }
    if short {
        return Err(Refusal::OutputLength);
    }
    let full = came >= 1152921504606845344;
    if full {
        return Err(Refusal::CountsFull);
    }
    Ok(())
}

// The answer that is due to the end.
fn end_due(short: bool) -> Result<(), Refusal>
    ensures { answered result ≡ end_due short }
{
    if short {
        return Err(Refusal::OutputLength);
    }
    Ok(())
}

// Writes the decisions on the first of the points, a pair as one number: on how many.
fn decide(i: &[f32], q: &[f32], lost: &[u8], pairs: &mut [u8]) -> usize
    requires { (length q.now ≡ length i.now) × (length lost.now ≡ length i.now) × (1632 ≤ length pairs.old) }
    ensures { (result ≡ min 1632 (length i.now))
        × (take result pairs.new ≡ take 1632 (map symbol_pair (received_of i.now q.now lost.now)))
        × (All (λ p. p < 81) (take result pairs.new)) }
{
    let some = i.len().min(1632);
    soft_pairs(&i[..some], &q[..some], &lost[..some], pairs);
    some
}

// Writes what a step gives and tells to the front of the rooms, and how many bytes of each there are.
fn put_told(front: &[u8], lines: &[u8], packets: &mut [u8], text: &mut [u8], counts: &mut [u64])
    requires { (length front.now ≤ length packets.old) × (length lines.now ≤ length text.old) × (2 ≤ length counts.old) }
    ensures { GivesTold packets.old text.old counts.old front.now lines.now packets.new text.new counts.new }
{
    put(front, 0, packets);
    put(lines, 0, text);
    counts[0] = front.len() as u64;
    counts[1] = lines.len() as u64;
}

// Takes a step by the first of the points, and writes what it gives and tells, and the bytes of the stream after it: how many points it took.
fn step_points(
    stream: LockStream,
    i: &[f32],
    q: &[f32],
    lost: &[u8],
    state: &mut [u8],
    packets: &mut [u8],
    text: &mut [u8],
    counts: &mut [u64],
) -> u64
    requires { (Sized stream) × (in_range stream ≡ true) × (length state.old ≡ 15121) × (0 < length i.now)
        × (points_due (came_of stream.source) i.now q.now lost.now (short_room (length packets.old) (length text.old) (length counts.old)) ≡ 0) }
    ensures { LeavesStep stream i.now q.now lost.now packets.old text.old counts.old result state.new packets.new text.new counts.new }
{
    let mut pairs = [0u8; 1632];
    let some = decide(i, q, lost, &mut pairs);
    let mut front = [0u8; 1504];
    let mut lines = [0u8; 2048];
    let step = stream.step(&pairs[..some], &mut front, &mut lines);
    let given = step.packets;
    let told = step.text;
    let taken = step.taken;
    write_state(step.stream, state);
    put_told(&front[..given], &lines[..told], packets, text, counts);
    taken as u64
}

// The closing lines, where the end is over: how many bytes of text there are.
fn close_over(
    stream: LockStream,
    over: Option<usize>,
    rest: u64,
    told: usize,
    lines: &mut [u8],
) -> usize
    requires { (StreamReady stream) × (IfSome over (λ left. left < 1632)) × (told ≤ 2048) × (2048 ≤ length lines.old) }
    ensures { ClosesLines stream over rest told lines.old result lines.new }
{
    match over {
        Some(left) => stream.close(left, rest, lines),
        None => told,
    }
}

// Takes a step of the end, and writes what it gives and tells, and the bytes of the stream after it: 1 where it was the last.
fn step_end(
    stream: LockStream,
    rest: u64,
    state: &mut [u8],
    packets: &mut [u8],
    text: &mut [u8],
    counts: &mut [u64],
) -> u64
    requires { (Sized stream) × (in_range stream ≡ true) × (length state.old ≡ 15121) × (end_due (short_room (length packets.old) (length text.old) (length counts.old)) ≡ 0) }
    ensures { LeavesEnd rest stream packets.old text.old counts.old result state.new packets.new text.new counts.new }
{
    let mut front = [0u8; 1504];
    let mut lines = [0u8; 2048];
    let step = stream.end_step(&mut front, &mut lines);
    let next = step.stream;
    let given = step.packets;
    let over = step.over;
    let told = close_over(next, over, rest, step.text, &mut lines);
    write_state(next, state);
    put_told(&front[..given], &lines[..told], packets, text, counts);
    match over {
        Some(_) => 1,
        None => 0,
    }
}

// Takes some of the points, as many as one step takes: how many. The first two numbers of counts are how many bytes of packets and of text were written, and the first
// byte of answer has the number of the answer.
#[unsafe(no_mangle)]
pub extern "C" fn dvbs_lock_feed(
    state: &mut [u8],
    i: &[f32],
    q: &[f32],
    lost: &[u8],
    packets: &mut [u8],
    text: &mut [u8],
    counts: &mut [u64],
    answer: &mut [u8],
) -> u64
    ensures { FeedsLock state.old i.now q.now lost.now packets.old text.old counts.old answer.old result state.new packets.new text.new counts.new answer.new }
{
    if answer.len() < 1 {
        return 0;
    }
    if state.len() != STATE_LENGTH {
        let refusal = Refusal::StateLength;
        answer[0] = refusal.number();
        return 0;
    }
    let before = read_state(state);
    if !is_in_range(before) {
        let refusal = Refusal::StateRange;
        answer[0] = refusal.number();
        return 0;
    }
    let source = before.source;
    let short = is_short(packets.len(), text.len(), counts.len());
    let due = points_due(source.came(), i, q, lost, short);
    let number = answer::answered(&due);
    answer[0] = number;
    if number != 0 {
        return 0;
    }
    if i.len() == 0 {
        counts[0] = 0;
        counts[1] = 0;
        return 0;
    }
    step_points(before, i, q, lost, state, packets, text, counts)
}

// After the last point, call after call until it is over, which 1 tells: writes what the end decides, and at last the closing lines, where so many bytes are behind the
// last whole point.
#[unsafe(no_mangle)]
pub extern "C" fn dvbs_lock_end(
    state: &mut [u8],
    rest: u64,
    packets: &mut [u8],
    text: &mut [u8],
    counts: &mut [u64],
    answer: &mut [u8],
) -> u64
    ensures { EndsLock state.old rest packets.old text.old counts.old answer.old result state.new packets.new text.new counts.new answer.new }
{
    if answer.len() < 1 {
        return 0;
    }
    if state.len() != STATE_LENGTH {
        let refusal = Refusal::StateLength;
        answer[0] = refusal.number();
        return 0;
    }
    let before = read_state(state);
    if !is_in_range(before) {
        let refusal = Refusal::StateRange;
        answer[0] = refusal.number();
        return 0;
    }
    let short = is_short(packets.len(), text.len(), counts.len());
    let due = end_due(short);
    let number = answer::answered(&due);
    answer[0] = number;
    if number != 0 {
        return 0;
    }
    step_end(before, rest, state, packets, text, counts)
}
