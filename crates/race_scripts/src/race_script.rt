// Lines of the script of `stsctl cluster` in which a race follows an order.
use crate::play::{Effect, Play, Sending};
use crate::seats::{Seat, Seats};
use controllers::SetSpec;
use explorer::{Move, Race};
use json::Writer;
use participants::Participant;
use plain::{Request, end_line, write_integer_member, write_text_member};
use scripts::write_request;
use std::alloc::{AllocError, Global};

/// The script in which the looker sends the beginning, those who race send requests in that order, each brought to its
/// reply, and the looker sends the looks. Reads that the order leaves out come right behind the reply that lets a
/// controller leave them out. A controller or a kubelet that crashes just makes no further step once it has
/// called, which is all that the store can notice; a late write is then brought to its reply.
pub(crate) fn script_of_race(
    alloc: Global,
    race: &Race,
    seats: &Seats,
    order: &[Move],
    play: &Play,
) -> Result<Vec<u8>, AllocError> {
    let header = put_header(race, Vec::new(alloc))?;
    let begun = put_asks(seats.looker, race.beginning.as_slice(), header)?;
    let gone = put_order(alloc, seats, order, play.sent.as_slice(), begun)?;
    let ended = put_left_out(seats, play.left_out.as_slice(), gone)?;
    put_asks(seats.looker, race.looks.as_slice(), ended)
}

fn put_header(race: &Race, out: Vec<u8>) -> Result<Vec<u8>, AllocError> {
    let mut writer = Writer::new(out);
    writer.begin_object()?;
    write_integer_member("capacity", race.capacity, &mut writer)?;
    write_sets(race.participants.as_slice(), &mut writer)?;
    write_integer_member("shards", 1, &mut writer)?;
    writer.end_object()?;
    end_line(writer)
}

fn write_sets(participants: &[Participant], out: &mut Writer) -> Result<(), AllocError> {
    out.key("sets")?;
    out.begin_array()?;
    for participant in participants {
        write_sets_of(participant, out)?;
    }
    out.end_array()
}

fn write_sets_of(participant: &Participant, out: &mut Writer) -> Result<(), AllocError> {
    match participant {
        Participant::Controller {
            set,
            rounds: _,
            may_crash,
            spares_reads: _,
        } => {
            if *may_crash {
                write_set(set, out)?;
            }
            write_set(set, out)
        }
        _ => Ok(()),
    }
}

fn write_set(set: &SetSpec, out: &mut Writer) -> Result<(), AllocError> {
    out.begin_object()?;
    write_integer_member("digits", set.digits as u64, out)?;
    write_text_member("moment", set.moment.as_str(), out)?;
    write_text_member("name", set.name.as_str(), out)?;
    write_text_member("namespace", set.namespace.as_str(), out)?;
    out.end_object()
}

fn put_asks(caller: u64, requests: &[Request], out: Vec<u8>) -> Result<Vec<u8>, AllocError> {
    let mut text = out;
    for request in requests {
        text = put_call("ask", caller, request, text)?;
    }
    Ok(text)
}

fn put_order(
    alloc: Global,
    seats: &Seats,
    order: &[Move],
    sent: &[Option<Sending>],
    out: Vec<u8>,
) -> Result<Vec<u8>, AllocError> {
    let mut crashed = Vec::new(alloc);
    let mut text = out;
    for index in 0..order.len() {
        let sending = match sent.get(index) {
            Some(Some(sending)) => Some(sending),
            _ => None,
        };
        text = put_move(seats, order[index], sending, crashed.as_slice(), text)?;
        if let Move::Crash(number) = order[index] {
            crashed.push(number)?;
        }
    }
    Ok(text)
}

/// A move, given who has crashed before.
fn put_move(
    seats: &Seats,
    happens: Move,
    sending: Option<&Sending>,
    crashed: &[usize],
    out: Vec<u8>,
) -> Result<Vec<u8>, AllocError> {
    match happens {
        Move::Ask(number) => put_ask(seats.seat(number, crashed.contains(&number)), sending, out),
        Move::Crash(number) => put_open_call(seats.seat(number, false), sending, out),
        Move::Late(number) => put_run(seats.seat(number, false), out),
    }
}

/// What is asked is brought to its reply, or its caller crashes.
fn put_ask(seat: Seat, sending: Option<&Sending>, out: Vec<u8>) -> Result<Vec<u8>, AllocError> {
    match seat {
        Seat::Controller(number) => put_asks_of(number, sending, out),
        Seat::Caller(caller) => match sending {
            Some(sending) => put_sending(caller, sending, out),
            None => Ok(out),
        },
    }
}

/// What a controller asks, and the reads that the order leaves out behind it.
fn put_asks_of(
    controller: u64,
    sending: Option<&Sending>,
    out: Vec<u8>,
) -> Result<Vec<u8>, AllocError> {
    let mut text = put_turns(controller, out)?;
    if let Some(sending) = sending {
        for _ in 0..sending.outcome.reads_left_out {
            text = put_turns(controller, text)?;
        }
    }
    Ok(text)
}

/// A controller asks, and is brought to its reply.
fn put_turns(controller: u64, out: Vec<u8>) -> Result<Vec<u8>, AllocError> {
    let called = put_turn("next", controller, out)?;
    put_turn("run", controller, called)
}

fn put_sending(caller: u64, sending: &Sending, out: Vec<u8>) -> Result<Vec<u8>, AllocError> {
    if !sending.crashes {
        return put_call("ask", caller, &sending.request, out);
    }
    let called = put_call("outside", caller, &sending.request, out)?;
    match sending.outcome.effect {
        Effect::Nothing => put_step("crash", caller, called),
        Effect::Write => put_crash_within_a_write(caller, called),
        Effect::Compaction => {
            let compacted = put_step("compact", caller, called)?;
            put_step("crash", caller, compacted)
        }
    }
}

/// The write is carried out though its caller crashes.
fn put_crash_within_a_write(caller: u64, out: Vec<u8>) -> Result<Vec<u8>, AllocError> {
    let checked = put_step("check", caller, out)?;
    let reserved = put_step("reserve", caller, checked)?;
    let crashed = put_step("crash", caller, reserved)?;
    let published = put_step("publish", caller, crashed)?;
    let mut writer = Writer::new(published);
    writer.begin_object()?;
    write_text_member("event", "raise", &mut writer)?;
    writer.end_object()?;
    end_line(writer)
}

/// What was called before a crash stays open.
fn put_open_call(
    seat: Seat,
    sending: Option<&Sending>,
    out: Vec<u8>,
) -> Result<Vec<u8>, AllocError> {
    match seat {
        Seat::Controller(number) => put_turn("next", number, out),
        Seat::Caller(caller) => match sending {
            Some(sending) => put_call("outside", caller, &sending.request, out),
            None => Ok(out),
        },
    }
}

/// What is open is brought to its reply.
fn put_run(seat: Seat, out: Vec<u8>) -> Result<Vec<u8>, AllocError> {
    match seat {
        Seat::Controller(number) => put_turn("run", number, out),
        Seat::Caller(caller) => put_step("run", caller, out),
    }
}

/// A request that is left out, as its caller crashes within it, is called and has no effect.
fn put_left_out(
    seats: &Seats,
    left_out: &[Option<Request>],
    out: Vec<u8>,
) -> Result<Vec<u8>, AllocError> {
    let mut text = out;
    for number in 0..left_out.len() {
        if let Some(request) = &left_out[number]
            && let Seat::Caller(caller) = seats.seat(number, false)
        {
            let called = put_call("outside", caller, request, text)?;
            text = put_step("crash", caller, called)?;
        }
    }
    Ok(text)
}

fn put_call(
    event: &str,
    caller: u64,
    request: &Request,
    out: Vec<u8>,
) -> Result<Vec<u8>, AllocError> {
    let mut writer = Writer::new(out);
    writer.begin_object()?;
    write_integer_member("caller", caller, &mut writer)?;
    write_text_member("event", event, &mut writer)?;
    writer.key("request")?;
    write_request(request, &mut writer)?;
    writer.end_object()?;
    end_line(writer)
}

fn put_step(event: &str, caller: u64, out: Vec<u8>) -> Result<Vec<u8>, AllocError> {
    let mut writer = Writer::new(out);
    writer.begin_object()?;
    write_integer_member("caller", caller, &mut writer)?;
    write_text_member("event", event, &mut writer)?;
    writer.end_object()?;
    end_line(writer)
}

fn put_turn(event: &str, controller: u64, out: Vec<u8>) -> Result<Vec<u8>, AllocError> {
    let mut writer = Writer::new(out);
    writer.begin_object()?;
    write_integer_member("controller", controller, &mut writer)?;
    write_text_member("event", event, &mut writer)?;
    writer.end_object()?;
    end_line(writer)
}
