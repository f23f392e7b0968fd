//! What a poster's thread does.
ghost use Rattle.std.specs.Prelude.{◌≡◌, ◌∷◌, ◌++◌, ◌<◌, ◌≤◌, [], length};
ghost use Rattle.std.specs.VecDeque.{deque_capacity};
ghost use Rattle.dm_mail.specs.Limits.{most_bundles};
ghost use Rattle.dm_mail.specs.Mails.{bundle, mark};
ghost use Rattle.dm_mail.specs.Ends.{outlet_mails, sent_mails, next_mail_of, SameOutlet, EndsAs};
ghost use Rattle.dm_mirror.specs.Jobs.{DoesPost, EndsLine, IsBegun, SameLine};
ghost use Rattle.dm_mirror.specs.Lists.{EachWith};

use crate::jobs::{Line, NewLine, PostJob};
use dm_mail::{Outlet, Sent, Text};
use std::collections::VecDeque;
use std::snapshot::Snapshot;
use std::sync::Wait;
use std::thread;

/// Sends a bundle, and tries again as long as it is handed back.
fn send<R: Wait>(rt: &R, outlet: &mut Outlet, text: Text)
    requires { length (outlet_mails outlet.old) < most_bundles }
    ensures same { SameOutlet outlet.old outlet.new }
    ensures sent { outlet_mails outlet.new ≡ outlet_mails outlet.old ++ next_mail_of outlet.old (bundle text) ∷ [] }
{
    let mut text = text;
    for _ in rt.forever() {
        match outlet.send(rt, text) {
            Ok(()) => return,
            Err(unsent) => text = unsent.text,
        }
        thread::yield_now();
    }
    unreachable!()
}

/// Sends the mark, and tries again as long as the outlet is handed back.
fn close<R: Wait>(rt: &R, outlet: Outlet) -> Sent
    ensures end { EndsAs outlet result }
    ensures sent { sent_mails result ≡ outlet_mails outlet ++ next_mail_of outlet mark ∷ [] }
{
    let mut outlet = outlet;
    for _ in rt.forever() {
        match outlet.close(rt) {
            Ok(sent) => return sent,
            Err(back) => outlet = back,
        }
        thread::yield_now();
    }
    unreachable!()
}

/// Sends the next text of a line, if one is left.
fn send_next<R: Wait>(rt: &R, line: Line) -> Line
    ensures { SameLine line result }
{
    let Line {
        mut outlet,
        mut left,
        texts,
    } = line;
    match left.pop_front() {
        None => Line {
            outlet,
            left,
            texts,
        },
        Some(text) => {
            send(rt, &mut outlet, text);
            Line {
                outlet,
                left,
                texts,
            }
        }
    }
}

/// Sends what is left of a line, and then the mark.
fn finish<R: Wait>(rt: &R, line: Line) -> Sent
    ensures { EndsLine line result }
{
    let Line {
        mut outlet,
        mut left,
        ..
    } = line;
    while let Some(text) = left.pop_front() {
        send(rt, &mut outlet, text);
    }
    close(rt, outlet)
}

/// Sends the next text of each line. Returns the lines, and the room that they were in.
fn send_round<R: Wait>(
    rt: &R,
    lines: VecDeque<Line>,
    room: VecDeque<Line>,
) -> (VecDeque<Line>, VecDeque<Line>)
    requires { (room.items ≡ []) × (length lines.items ≤ deque_capacity room) }
    ensures lines { EachWith SameLine lines.items result.0.items }
    ensures capacity { (deque_capacity result.0 ≡ deque_capacity room) × (deque_capacity result.1 ≡ deque_capacity lines) }
    ensures empty { result.1.items ≡ [] }
{
    let mut lines = lines;
    let mut moved = room;
    while let Some(line) = lines.pop_front() {
        moved.push_back_reserved(send_next(rt, line));
    }
    (moved, lines)
}

/// The line of a new line.
fn begin(line: NewLine) -> Line
    ensures { IsBegun line result }
{
    let NewLine { outlet, left } = line;
    let texts = Snapshot::of(&left);
    Line {
        outlet,
        left,
        texts,
    }
}

/// Begins each line.
fn begin_all(lines: VecDeque<NewLine>, room: VecDeque<Line>) -> VecDeque<Line>
    requires { (room.items ≡ []) × (length lines.items ≤ deque_capacity room) }
    ensures begun { EachWith IsBegun lines.items result.items }
    ensures capacity { deque_capacity result ≡ deque_capacity room }
{
    let mut lines = lines;
    let mut begun = room;
    while let Some(line) = lines.pop_front() {
        begun.push_back_reserved(begin(line));
    }
    begun
}

/// Ends each line.
fn finish_all<R: Wait>(rt: &R, lines: VecDeque<Line>, room: VecDeque<Sent>) -> VecDeque<Sent>
    requires { (room.items ≡ []) × (length lines.items ≤ deque_capacity room) }
    ensures { EachWith EndsLine lines.items result.items }
{
    let mut lines = lines;
    let mut ends = room;
    while let Some(line) = lines.pop_front() {
        ends.push_back_reserved(finish(rt, line));
    }
    ends
}

/// Sends each text to every mirror before the next text, and then the marks. There is room for the lines as they go on, and
/// for what they end as.
pub(crate) fn post<R: Wait>(
    rt: &R,
    job: PostJob,
    room_for_lines: VecDeque<Line>,
    room: VecDeque<Line>,
    room_for_ends: VecDeque<Sent>,
) -> VecDeque<Sent>
    requires empty { (room_for_lines.items ≡ []) × (room.items ≡ []) × (room_for_ends.items ≡ []) }
    requires fits { (length job.lines.items ≤ deque_capacity room_for_lines) × (length job.lines.items ≤ deque_capacity room) × (length job.lines.items ≤ deque_capacity room_for_ends) }
    ensures { DoesPost job result.items }
{
    let PostJob { lines, rounds } = job;
    let mut lines = begin_all(lines, room_for_lines);
    let mut room = room;
    for _ in 0..rounds {
        (lines, room) = send_round(rt, lines, room);
    }
    finish_all(rt, lines, room_for_ends)
}
