// Ends, by the lines of the text.
ghost use Rattle.std.specs.Prelude.{◌≡◌, IfOk};
ghost use Rattle.explorer.specs.declared.race.Move.TheVariants.{Ask};
ghost use Rattle.outcome_lines.specs.Lined.{asked_lines, behind, every_told, first_line, is_left_out, line_of, lined_order, lines_asked, lists_of, move_by, moves_from, passed, told_at, told_first, told_to};
ghost use Rattle.race_lines.specs.Questions.{rest, told_lists};

use explorer::{End, Move};
use objects::Memory;
use participants::Told;
use race_lines::{AskedRace, Sent};
use std::alloc::{AllocError, Global};

/// What happens next, by the line of the one who moves.
#[derive(Clone, Copy)]
pub(crate) enum LinedMove {
    Ask(usize),
    Crash(usize),
    Late(usize),
}

/// What became of each request that is told, in the order of the text.
pub(crate) fn every_told(
    alloc: Global,
    sent: &[Sent],
    told: &[Vec<Told>],
) -> Result<Vec<Told>, Memory>
    ensures { IfOk result (λ all. all.items ≡ every_told sent.now (told_lists told.now)) }
{
    let mut all = Vec::new(alloc);
    for one in sent {
        let copy = told_to(one, told)?;
        all.push(copy)?;
    }
    Ok(all)
}

/// What became of one request.
fn told_to(one: &Sent, told: &[Vec<Told>]) -> Result<Told, Memory>
    ensures { IfOk result (λ t. t ≡ told_to (told_lists told.now) one.now) }
{
    match told.get(one.participant) {
        Some(all) => told_at(all.as_slice(), one.index),
        None => Ok(Told::Unheard),
    }
}

fn told_at(told: &[Told], index: usize) -> Result<Told, Memory>
    ensures { IfOk result (λ t. t ≡ told_at told.now index) }
{
    match told.get(index) {
        Some(Told::Heard(reply)) => Ok(Told::Heard(reply.clone()?)),
        Some(Told::Unasked) => Ok(Told::Unasked),
        Some(Told::Unheard) | None => Ok(Told::Unheard),
    }
}

/// The order of an end, by lines.
pub(crate) fn lined_order(
    alloc: Global,
    asked: &AskedRace,
    end: &End,
) -> Result<Vec<LinedMove>, AllocError>
    ensures { IfOk result (λ moves. moves.items ≡ lined_order asked.now end.now) }
{
    let mut left = lines_asked(alloc, asked.race.lines.as_slice(), end.told.as_slice())?;
    let moves = moves_from(alloc, &mut left, end.order.as_slice());
    drop(left);
    moves
}

/// Of each participant the lines that are asked: not those that a caller leaves out.
fn lines_asked(
    alloc: Global,
    lines: &[Vec<usize>],
    told: &[Vec<Told>],
) -> Result<Vec<Vec<usize>>, AllocError>
    ensures { IfOk result (λ all. lists_of all.items ≡ lines_asked (lists_of lines.now) (told_lists told.now)) }
{
    let mut all = Vec::new(alloc);
    let mut lines_left = lines;
    let mut told_left = told;
    'participants: while let Some((own, lines_behind)) = lines_left.split_first() {
        let asked = asked_lines(alloc, own.as_slice(), told_first(told_left))?;
        all.push(asked)?;
        lines_left = lines_behind;
        told_left = rest(told_left);
    }
    Ok(all)
}

fn told_first(told: &[Vec<Told>]) -> &[Told]
    ensures { result.now ≡ told_first (told_lists told.now) }
{
    match told.first() {
        Some(first) => first.as_slice(),
        None => &[],
    }
}

/// All but the first.
fn rest<T>(all: &[T]) -> &[T]
    ensures { result.now ≡ rest all.now }
{
    match all.split_first() {
        Some((_first, behind)) => behind,
        None => &[],
    }
}

fn asked_lines(alloc: Global, lines: &[usize], told: &[Told]) -> Result<Vec<usize>, AllocError>
    ensures { IfOk result (λ asked. asked.items ≡ asked_lines lines.now told.now) }
{
    let mut asked = Vec::new(alloc);
    let mut lines_left = lines;
    let mut told_left = told;
    'lines: while let Some((line, lines_behind)) = lines_left.split_first() {
        if !is_left_out(told_left) {
            asked.push(*line)?;
        }
        lines_left = lines_behind;
        told_left = rest(told_left);
    }
    Ok(asked)
}

/// Whether the first request is left out.
fn is_left_out(told: &[Told]) -> bool
    ensures { result ≡ is_left_out told.now }
{
    matches!(told.first(), Some(Told::Unasked))
}

/// The moves by lines, given the lines of each participant that are left.
fn moves_from(
    alloc: Global,
    left: &mut Vec<Vec<usize>>,
    order: &[Move],
) -> Result<Vec<LinedMove>, AllocError>
    ensures { IfOk result (λ moves. moves.items ≡ moves_from (lists_of left.old.items) order.now) }
{
    let mut moves = Vec::new(alloc);
    for happens in order {
        moves.push(move_by(left.as_slice(), *happens))?;
        pass(left, *happens);
    }
    Ok(moves)
}

fn move_by(left: &[Vec<usize>], happens: Move) -> LinedMove
    ensures { result ≡ move_by (lists_of left.now) happens }
{
    match happens {
        Move::Ask(number) => LinedMove::Ask(line_of(left, number)),
        Move::Crash(number) => LinedMove::Crash(line_of(left, number)),
        Move::Late(number) => LinedMove::Late(line_of(left, number)),
    }
}

fn line_of(left: &[Vec<usize>], number: usize) -> usize
    ensures { result ≡ line_of (lists_of left.now) number }
{
    match left.get(number) {
        Some(lines) => first_line(lines.as_slice()),
        None => 0,
    }
}

fn first_line(lines: &[usize]) -> usize
    ensures { result ≡ first_line lines.now }
{
    match lines.first() {
        Some(line) => *line,
        None => 0,
    }
}

/// The line of a request is passed, unless it is the last one: that of a controller or a kubelet stands for all of its
/// requests.
fn pass(left: &mut Vec<Vec<usize>>, happens: Move)
    ensures { lists_of left.new.items ≡ passed (lists_of left.old.items) happens }
{
    match happens {
        Move::Ask(number) => pass_at(left, number),
        Move::Crash(_) | Move::Late(_) => {}
    }
}

fn pass_at(left: &mut Vec<Vec<usize>>, number: usize)
    ensures { lists_of left.new.items ≡ passed (lists_of left.old.items) (Ask number) }
{
    if number < left.len() {
        pass_first(&mut left[number]);
    }
}

fn pass_first(lines: &mut Vec<usize>)
    ensures { lines.new.items ≡ behind lines.old.items }
{
    if lines.len() > 1 {
        lines.remove(0);
    }
}
