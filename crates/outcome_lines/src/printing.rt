// Ends of a race, as lines of JSON.
ghost use Rattle.std.specs.Prelude.{◌≡◌, ◌++◌, ◌∷◌, [], codes, map, IfOk, OnOk};
ghost use Rattle.json.specs.Token.{key as key_token};
ghost use Rattle.json.specs.Tree.{items_tokens, json_tokens};
ghost use Rattle.outcome_lines.specs.Printing.{answer_data, answers, both_data, end_data, ends_text, move_data, move_items, named_data, nouns, replied_data, told_data, unasked_data};
ghost use Rattle.plain.specs.Replies.{reply_data};
ghost use Rattle.plain.specs.ValueLines.{text_lines};
ghost use Rattle.serde_json.specs.Data.{array, null};
ghost use Rattle.serde_json.specs.Written.{compact_text, items_outline, outline};

use crate::lined::{LinedMove, every_told, lined_order};
use crate::stores::{put_store, revision_in, write_objects_member};
use explorer::End;
use json::Writer;
use objects::Memory;
use participants::Told;
use plain::{Reply, end_line, write_integer_member, write_reply};
use race_lines::{AskedRace, Question, Sent};
use std::alloc::{AllocError, Global};

/// The lines of the ends of a race, and last how many there are.
///
/// - What callers are told: `{"order":[I,..],"replies":[{"caller":N,"reply":R},..]}`, and last `{"outcomes":K}`. The
///   order has for each request the line of the one who sends it, from 0 for the line after the first one of the text;
///   `{"crash":I}` for the crash of the one of line I, and `{"late":I}` where what it had called is carried out. The
///   replies are in the order of the lines, R as a reply line of `serve`, and null if the caller crashes; a request that
///   is left out is `{"asked":false,"caller":N}`.
/// - The stores: `{"revision":V,"store":[OBJECT,..]}`, V the newest revision of the store, with its objects in the store's
///   order as replies of `serve` show them; and last `{"stores":K}`.
/// - Both: the members of the one and then those of the other, and last `{"ends":K}`.
pub fn ends_text(
    alloc: Global,
    question: Question,
    asked: &AskedRace,
    found: &[End],
) -> Result<Vec<u8>, Memory>
    ensures { IfOk result (λ text. text.items ≡ ends_text question asked.now found.now) }
{
    let lines = put_ends(alloc, question, asked, found, Vec::new(alloc))?;
    let text = put_count(nouns(question), found.len() as u64, lines)?;
    Ok(text)
}

fn nouns(question: Question) -> &'static str
    ensures { result.now ≡ nouns question }
{
    match question {
        Question::Told => "outcomes",
        Question::Stores => "stores",
        Question::Both => "ends",
    }
}

fn put_ends(
    alloc: Global,
    question: Question,
    asked: &AskedRace,
    found: &[End],
    out: Vec<u8>,
) -> Result<Vec<u8>, Memory>
    ensures { IfOk result (λ text. text.items ≡ out.items ++ text_lines (map (end_data question asked.now) found.now)) }
{
    let mut text = out;
    for end in found {
        text = put_end(alloc, question, asked, end, text)?;
    }
    Ok(text)
}

fn put_end(
    alloc: Global,
    question: Question,
    asked: &AskedRace,
    end: &End,
    out: Vec<u8>,
) -> Result<Vec<u8>, Memory>
    ensures { IfOk result (λ text. text.items ≡ out.items ++ (compact_text (end_data question asked.now end.now) ++ 10 ∷ [])) }
{
    match question {
        Question::Told => put_told(alloc, asked, end, out),
        Question::Stores => Ok(put_store(end.looks.as_slice(), out)?),
        Question::Both => put_both(alloc, asked, end, out),
    }
}

fn put_told(alloc: Global, asked: &AskedRace, end: &End, out: Vec<u8>) -> Result<Vec<u8>, Memory>
    ensures { IfOk result (λ text. text.items ≡ out.items ++ (compact_text (end_data Question.Told asked.now end.now) ++ 10 ∷ [])) }
{
    let order = lined_order(alloc, asked, end)?;
    let told = every_told(alloc, asked.sent.as_slice(), end.told.as_slice())?;
    let line = told_line(
        order.as_slice(),
        asked.sent.as_slice(),
        told.as_slice(),
        out,
    );
    drop(told);
    Ok(line?)
}

fn put_both(alloc: Global, asked: &AskedRace, end: &End, out: Vec<u8>) -> Result<Vec<u8>, Memory>
    ensures { IfOk result (λ text. text.items ≡ out.items ++ (compact_text (end_data Question.Both asked.now end.now) ++ 10 ∷ [])) }
{
    let order = lined_order(alloc, asked, end)?;
    let told = every_told(alloc, asked.sent.as_slice(), end.told.as_slice())?;
    let line = both_line(
        order.as_slice(),
        asked.sent.as_slice(),
        told.as_slice(),
        end.looks.as_slice(),
        out,
    );
    drop(told);
    Ok(line?)
}

fn told_line(
    order: &[LinedMove],
    sent: &[Sent],
    told: &[Told],
    out: Vec<u8>,
) -> Result<Vec<u8>, AllocError>
    ensures { IfOk result (λ text. text.items ≡ out.items ++ (compact_text (told_data order.now sent.now told.now) ++ 10 ∷ [])) }
{
    let mut writer = Writer::new(out);
    write_told_end(order, sent, told, &mut writer)?;
    end_line(writer)
}

fn both_line(
    order: &[LinedMove],
    sent: &[Sent],
    told: &[Told],
    shown: &[Reply],
    out: Vec<u8>,
) -> Result<Vec<u8>, AllocError>
    ensures { IfOk result (λ text. text.items ≡ out.items ++ (compact_text (both_data order.now sent.now told.now shown.now) ++ 10 ∷ [])) }
{
    let mut writer = Writer::new(out);
    write_both_end(order, sent, told, shown, &mut writer)?;
    end_line(writer)
}

fn write_told_end(
    order: &[LinedMove],
    sent: &[Sent],
    told: &[Told],
    out: &mut Writer,
) -> Result<(), AllocError>
    ensures tokens { OnOk result (out.new.tokens ≡ out.old.tokens ++ json_tokens (outline (told_data order.now sent.now told.now))) }
    ensures before { out.new.before ≡ out.old.before }
{
    out.begin_object()?;
    write_order_member(order, out)?;
    write_replies_member(sent, told, out)?;
    out.end_object()
}

fn write_both_end(
    order: &[LinedMove],
    sent: &[Sent],
    told: &[Told],
    shown: &[Reply],
    out: &mut Writer,
) -> Result<(), AllocError>
    ensures tokens { OnOk result (out.new.tokens ≡ out.old.tokens ++ json_tokens (outline (both_data order.now sent.now told.now shown.now))) }
    ensures before { out.new.before ≡ out.old.before }
{
    out.begin_object()?;
    write_order_member(order, out)?;
    write_replies_member(sent, told, out)?;
    write_integer_member("revision", revision_in(shown), out)?;
    write_objects_member(shown, out)?;
    out.end_object()
}

fn write_order_member(order: &[LinedMove], out: &mut Writer) -> Result<(), AllocError>
    ensures tokens { OnOk result (out.new.tokens ≡ out.old.tokens ++ key_token (codes "order") ∷ json_tokens (outline (array (move_items order.now)))) }
    ensures before { out.new.before ≡ out.old.before }
{
    out.key("order")?;
    out.begin_array()?;
    write_moves(order, out)
}

fn write_replies_member(sent: &[Sent], told: &[Told], out: &mut Writer) -> Result<(), AllocError>
    ensures tokens { OnOk result (out.new.tokens ≡ out.old.tokens ++ key_token (codes "replies")
        ∷ json_tokens (outline (array (answers sent.now told.now)))) }
    ensures before { out.new.before ≡ out.old.before }
{
    out.key("replies")?;
    out.begin_array()?;
    write_answers(sent, told, out)
}

// With the closing bracket.
fn write_moves(order: &[LinedMove], out: &mut Writer) -> Result<(), AllocError>
    ensures tokens { OnOk result (out.new.tokens ≡ out.old.tokens ++ items_tokens (items_outline (move_items order.now))) }
    ensures before { out.new.before ≡ out.old.before }
{
    for happens in order {
        write_move(*happens, out)?;
    }
    out.end_array()
}

fn write_move(happens: LinedMove, out: &mut Writer) -> Result<(), AllocError>
    ensures tokens { OnOk result (out.new.tokens ≡ out.old.tokens ++ json_tokens (outline (move_data happens))) }
    ensures before { out.new.before ≡ out.old.before }
{
    match happens {
        LinedMove::Ask(line) => out.u64(line as u64),
        LinedMove::Crash(line) => write_named("crash", line as u64, out),
        LinedMove::Late(line) => write_named("late", line as u64, out),
    }
}

/// `{"crash":I}`, and so with another name.
fn write_named(name: &str, number: u64, out: &mut Writer) -> Result<(), AllocError>
    ensures tokens { OnOk result (out.new.tokens ≡ out.old.tokens ++ json_tokens (outline (named_data name.now number))) }
    ensures before { out.new.before ≡ out.old.before }
{
    out.begin_object()?;
    write_integer_member(name, number, out)?;
    out.end_object()
}

// With the closing bracket.
fn write_answers(sent: &[Sent], told: &[Told], out: &mut Writer) -> Result<(), AllocError>
    ensures tokens { OnOk result (out.new.tokens ≡ out.old.tokens ++ items_tokens (items_outline (answers sent.now told.now))) }
    ensures before { out.new.before ≡ out.old.before }
{
    let mut sent_left = sent;
    let mut told_left = told;
    'answers: while let Some((one, sent_behind)) = sent_left.split_first() {
        let Some((heard, told_behind)) = told_left.split_first() else {
            break 'answers;
        };
        write_answer(one.caller, heard, out)?;
        sent_left = sent_behind;
        told_left = told_behind;
    }
    out.end_array()
}

fn write_answer(caller: u64, told: &Told, out: &mut Writer) -> Result<(), AllocError>
    ensures tokens { OnOk result (out.new.tokens ≡ out.old.tokens ++ json_tokens (outline (answer_data caller told.now))) }
    ensures before { out.new.before ≡ out.old.before }
{
    match told {
        Told::Heard(reply) => write_replied(caller, reply, out),
        Told::Unasked => write_unasked(caller, out),
        Told::Unheard => write_unreplied(caller, out),
    }
}

fn write_replied(caller: u64, reply: &Reply, out: &mut Writer) -> Result<(), AllocError>
    ensures tokens { OnOk result (out.new.tokens ≡ out.old.tokens ++ json_tokens (outline (replied_data caller (reply_data reply.now)))) }
    ensures before { out.new.before ≡ out.old.before }
{
    out.begin_object()?;
    write_integer_member("caller", caller, out)?;
    out.key("reply")?;
    write_reply(reply, out)?;
    out.end_object()
}

fn write_unreplied(caller: u64, out: &mut Writer) -> Result<(), AllocError>
    ensures tokens { OnOk result (out.new.tokens ≡ out.old.tokens ++ json_tokens (outline (replied_data caller null))) }
    ensures before { out.new.before ≡ out.old.before }
{
    out.begin_object()?;
    write_integer_member("caller", caller, out)?;
    out.key("reply")?;
    out.null()?;
    out.end_object()
}

fn write_unasked(caller: u64, out: &mut Writer) -> Result<(), AllocError>
    ensures tokens { OnOk result (out.new.tokens ≡ out.old.tokens ++ json_tokens (outline (unasked_data caller))) }
    ensures before { out.new.before ≡ out.old.before }
{
    out.begin_object()?;
    out.key("asked")?;
    out.boolean(false)?;
    write_integer_member("caller", caller, out)?;
    out.end_object()
}

/// Appends the last line.
fn put_count(nouns: &str, count: u64, out: Vec<u8>) -> Result<Vec<u8>, AllocError>
    ensures { IfOk result (λ text. text.items ≡ out.items ++ (compact_text (named_data nouns.now count) ++ 10 ∷ [])) }
{
    let mut writer = Writer::new(out);
    write_named(nouns, count, &mut writer)?;
    end_line(writer)
}
