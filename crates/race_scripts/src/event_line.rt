// Lines of a script of `stsctl replay`.
use history::Event;
use json::Writer;
use plain::{Request, end_line, write_integer_member, write_text_member};
use scripts::write_request;
use std::alloc::{AllocError, Global};

/// The script of these events, over one shard.
pub(crate) fn script_of_events(
    alloc: Global,
    capacity: u64,
    events: &[Event],
) -> Result<Vec<u8>, AllocError> {
    let mut text = put_header(capacity, Vec::new(alloc))?;
    for event in events {
        text = put_event(event, text)?;
    }
    Ok(text)
}

fn put_header(capacity: u64, out: Vec<u8>) -> Result<Vec<u8>, AllocError> {
    let mut writer = Writer::new(out);
    writer.begin_object()?;
    write_integer_member("capacity", capacity, &mut writer)?;
    write_integer_member("shards", 1, &mut writer)?;
    writer.end_object()?;
    end_line(writer)
}

fn put_event(event: &Event, out: Vec<u8>) -> Result<Vec<u8>, AllocError> {
    let mut writer = Writer::new(out);
    writer.begin_object()?;
    write_event(event, &mut writer)?;
    writer.end_object()?;
    end_line(writer)
}

fn write_event(event: &Event, out: &mut Writer) -> Result<(), AllocError> {
    match event {
        Event::Call(caller, request) => write_call(*caller, request, out),
        Event::Check(caller) => write_step("check", *caller, out),
        Event::Reserve(caller) => write_step("reserve", *caller, out),
        Event::Publish(caller) => write_step("publish", *caller, out),
        Event::Raise => write_text_member("event", "raise", out),
        Event::Read(caller) => write_step("read", *caller, out),
        Event::ReadAt(caller) => write_step("readat", *caller, out),
        Event::Compact(caller) => write_step("compact", *caller, out),
        Event::Part(caller) => write_step("part", *caller, out),
        Event::Reply(caller) => write_step("reply", *caller, out),
        Event::Crash(caller) => write_step("crash", *caller, out),
    }
}

fn write_call(caller: u64, request: &Request, out: &mut Writer) -> Result<(), AllocError> {
    write_step("call", caller, out)?;
    out.key("request")?;
    write_request(request, out)
}

fn write_step(word: &str, caller: u64, out: &mut Writer) -> Result<(), AllocError> {
    write_integer_member("caller", caller, out)?;
    write_text_member("event", word, out)
}
