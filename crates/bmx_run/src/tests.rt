//! Worked scripts of two and four nodes: what they print, their events, letters and records, and how they end.
ghost use Rattle.std.specs.Prelude.{◌<◌, ◌^◌};

use crate::run_script;
use bmx_msg::Msg;
use bmx_node::Node;
use bmx_owner::Record;
use bmx_protocol::{Event, Input, NodeAnswer, Sending};
use bmx_script::{Script, read_script};
use bmx_types::Name;
use bmx_world::RunEnd;
use std::alloc::Global;
use std::test::Fail;

// The events are those that an independent model of the same rules has for the seed 0.

/// The lines behind the number of nodes: node 0 makes 0.2, sets it to 42 and stores it in the anchor 0.1.
const STORED: &str = "bunch main
0 new r0 main 1
0 write r0
0 set r0 0 42
0 done r0
0 write @main
0 set @main 0 r0
0 done @main
";

/// A script: how many nodes it has, and its lines behind those.
struct Case {
    nodes: u8,
    lines: &'static str,
}

/// Node 1 reads the anchor, and then 0.2.
const ONE_READER: Case = Case {
    nodes: 2,
    lines: "phase
1 read @main
1 get r0 @main 0
1 show @main 0
1 done @main
1 read r0
1 show r0 0
1 done r0
",
};

/// Nodes 2 and 3 read 0.2, nodes 1 and 0 write it, and nodes 2 and 3 read it again.
const TWO_READERS_ONE_WRITER: Case = Case {
    nodes: 4,
    lines: "phase
2 read @main
2 get r0 @main 0
2 done @main
2 read r0
2 show r0 0
2 done r0
phase
3 read @main
3 get r0 @main 0
3 done @main
3 read r0
3 show r0 0
3 done r0
phase
1 read @main
1 get r0 @main 0
1 done @main
1 write r0
1 set r0 0 43
1 done r0
phase
0 write r0
0 add r0 0 1
0 done r0
phase
2 read r0
2 show r0 0
2 done r0
phase
3 read r0
3 show r0 0
3 done r0
",
};

/// Nodes 0 and 1 want to write what the other holds.
const CROSSED_WRITERS: Case = Case {
    nodes: 2,
    lines: "phase
1 read @main
1 get r0 @main 0
1 done @main
phase
0 write @main
phase
1 write r0
phase
0 write r0
1 write @main
",
};

const EVENTS_OF_ONE_READER: &str = "1@1 do: wait -> 0#1@1 ReadReq 0.1
0@8 take 1#1: nil
0@9 serve 0.1: nil -> 1#1@9 ReadGrant 0.1
1@10 take 0#1: nil
1@11 do: nil
1@12 do: value
1@13 do: value
1@14 do: nil
1@15 do: wait -> 0#2@15 ReadReq 0.2
0@16 take 1#2: nil
0@17 serve 0.2: nil -> 1#2@17 ReadGrant 0.2
1@18 take 0#2: nil
1@19 do: nil
1@20 do: value
1@21 do: nil
";

const EVENTS_OF_TWO_READERS_ONE_WRITER: &str = "2@1 do: wait -> 0#1@1 ReadReq 0.1
0@8 take 2#1: nil
0@9 serve 0.1: nil -> 2#1@9 ReadGrant 0.1
2@10 take 0#1: nil
2@11 do: nil
2@12 do: value
2@13 do: nil
2@14 do: wait -> 0#2@14 ReadReq 0.2
0@15 take 2#2: nil
0@16 serve 0.2: nil -> 2#2@16 ReadGrant 0.2
2@17 take 0#2: nil
2@18 do: nil
2@19 do: value
2@20 do: nil
3@1 do: wait -> 0#1@1 ReadReq 0.1
0@17 take 3#1: nil
0@18 serve 0.1: nil -> 3#1@18 ReadGrant 0.1
3@19 take 0#1: nil
3@20 do: nil
3@21 do: value
3@22 do: nil
3@23 do: wait -> 0#2@23 ReadReq 0.2
0@24 take 3#2: nil
0@25 serve 0.2: nil -> 3#2@25 ReadGrant 0.2
3@26 take 0#2: nil
3@27 do: nil
3@28 do: value
3@29 do: nil
1@1 do: wait -> 0#1@1 ReadReq 0.1
0@26 take 1#1: nil
0@27 serve 0.1: nil -> 1#1@27 ReadGrant 0.1
1@28 take 0#1: nil
1@29 do: nil
1@30 do: value
1@31 do: nil
1@32 do: wait -> 0#2@32 WriteReq 0.2
0@33 take 1#2: nil
0@34 serve 0.2: nil -> 2#3@34 Inval 0.2 -> 3#3@34 Inval 0.2
2@35 take 0#3: nil -> 0#3@35 InvAck 0.2
0@36 take 2#3: nil
3@35 take 0#3: nil -> 0#3@35 InvAck 0.2
0@37 take 3#3: nil
0@38 serve 0.2: nil -> 1#2@38 WriteGrant 0.2
1@39 take 0#2: nil
1@40 do: nil
1@41 do: nil
1@42 do: nil
0@39 do: wait -> 1#3@39 WriteReq 0.2
1@43 take 0#3: nil
1@44 serve 0.2: nil -> 0#3@44 WriteGrant 0.2
0@45 take 1#3: nil
0@46 do: nil
0@47 do: nil
0@48 do: nil
2@36 do: wait -> 0#4@36 ReadReq 0.2
0@49 take 2#4: nil
0@50 serve 0.2: nil -> 2#4@50 ReadGrant 0.2
2@51 take 0#4: nil
2@52 do: nil
2@53 do: value
2@54 do: nil
3@36 do: wait -> 0#4@36 ReadReq 0.2
0@51 take 3#4: nil
0@52 serve 0.2: nil -> 3#4@52 ReadGrant 0.2
3@53 take 0#4: nil
3@54 do: nil
3@55 do: value
3@56 do: nil
";

const EVENTS_OF_CROSSED_WRITERS: &str = "0@10 do: wait
0@11 serve 0.1: nil -> 1#2@11 Inval 0.1
1@14 take 0#2: nil -> 0#2@14 InvAck 0.1
0@15 take 1#2: nil
0@16 serve 0.1: nil
0@17 do: nil
1@15 do: wait -> 0#3@15 WriteReq 0.2
0@18 take 1#3: nil
0@19 serve 0.2: nil -> 1#3@19 WriteGrant 0.2
1@20 take 0#3: nil
1@21 do: nil
0@20 do: wait -> 1#4@20 WriteReq 0.2
1@22 take 0#4: nil
1@23 do: wait -> 0#4@23 WriteReq 0.1
0@24 take 1#4: nil
";

/// More events than any of them has.
const MANY: u64 = 1000;

/// What the tests compare of a run.
#[derive(Drop)]
struct Told {
    end: RunEnd,
    events: usize,
    text: String,
}

fn script_of(alloc: Global, case: &Case) -> Option<Script> {
    let nodes = case.nodes;
    let lines = case.lines;
    match format!(in alloc; "bmx 1\nnodes {nodes}\n{STORED}{lines}") {
        Ok(text) => read_script(alloc, text.as_bytes()).ok(),
        Err(_) => None,
    }
}

/// What a script's run tells, None where there is no memory.
fn run_of(alloc: Global, case: &Case, seed: u64, budget: u64) -> Option<Told>
    requires { budget < 2 ^ 55 }
{
    let script = script_of(alloc, case)?;
    let Ok((run, end)) = run_script(alloc, script, seed, budget) else {
        return None;
    };
    let events = run.history.len();
    match String::from_str(alloc, run.text.as_str()) {
        Ok(text) => Some(Told { end, events, text }),
        Err(_) => None,
    }
}

impl Told {
    fn is_so(&self, end: RunEnd, events: usize, text: &str) -> bool {
        self.end == end && self.events == events && self.text.as_str() == text
    }
}

/// The two-node script's text after so many events: its lines come with the events 14 and 21.
fn text_after(events: u64) -> &'static str {
    match events {
        0..14 => "",
        14..21 => "1 14 0.2\n",
        _ => "1 14 0.2\n1 17 42\n",
    }
}

#[test]
fn budgets_are_kept(rt: HostRuntime) -> Result<(), Fail> {
    for budget in 0..22 {
        let told = run_of(rt.alloc(), &ONE_READER, 0, budget).ok_or("no memory")?;
        let so = told.is_so(RunEnd::Spent, budget as usize, text_after(budget));
        assert!(rt; so, "budget {budget}");
    }
    let told = run_of(rt.alloc(), &ONE_READER, 0, 22).ok_or("no memory")?;
    let so = told.is_so(RunEnd::Ended, 22, text_after(22));
    assert!(rt; so);
    Ok(())
}

#[test]
fn crossed_writers_are_stuck(rt: HostRuntime) -> Result<(), Fail> {
    for seed in 0..10 {
        let told = run_of(rt.alloc(), &CROSSED_WRITERS, seed, MANY).ok_or("no memory")?;
        assert!(rt; told.is_so(RunEnd::Stuck, 29, ""), "seed {seed}");
    }
    Ok(())
}

#[test]
fn two_nodes_share_an_object(rt: HostRuntime) -> Result<(), Fail> {
    for seed in 0..10 {
        let told = run_of(rt.alloc(), &ONE_READER, seed, MANY).ok_or("no memory")?;
        let so = told.is_so(RunEnd::Ended, 22, "1 14 0.2\n1 17 42\n");
        assert!(rt; so, "seed {seed}");
    }
    Ok(())
}

#[test]
fn four_nodes_share_an_object(rt: HostRuntime) -> Result<(), Fail> {
    for seed in 0..10 {
        let told = run_of(rt.alloc(), &TWO_READERS_ONE_WRITER, seed, MANY).ok_or("no memory")?;
        let so = told.is_so(RunEnd::Ended, 75, "2 16 42\n3 23 42\n2 38 44\n3 42 44\n");
        assert!(rt; so, "seed {seed}");
    }
    Ok(())
}

/// The kind of a message, and the name that it is about.
fn message(msg: &Msg) -> (&'static str, Name) {
    match msg {
        Msg::ReadReq { name, .. } => ("ReadReq", *name),
        Msg::WriteReq { name, .. } => ("WriteReq", *name),
        Msg::ReadGrant { info, .. } => ("ReadGrant", info.name),
        Msg::WriteGrant { info, .. } => ("WriteGrant", info.name),
        Msg::Inval { name } => ("Inval", *name),
        Msg::InvAck { name } => ("InvAck", *name),
    }
}

fn answer_word(answer: &NodeAnswer) -> &'static str {
    match answer {
        NodeAnswer::Nil => "nil",
        NodeAnswer::Value(_) => "value",
        NodeAnswer::Wait => "wait",
        _ => "another",
    }
}

fn name_text(alloc: Global, name: Name) -> Option<String> {
    let (node, count) = (name.node().get(), name.count());
    format!(in alloc; "{node}.{count}").ok()
}

fn input_text(alloc: Global, input: &Input) -> Option<String> {
    match input {
        Input::Do(_) => String::from_str(alloc, "do").ok(),
        Input::Serve(name) => {
            let name = name_text(alloc, *name)?;
            format!(in alloc; "serve {name}").ok()
        }
        Input::Take { from, letter } => {
            let (from, number) = (from.get(), letter.seq);
            format!(in alloc; "take {from}#{number}").ok()
        }
    }
}

fn letter_text(alloc: Global, sending: &Sending) -> Option<String> {
    let (to, number, stamp) = (sending.to.get(), sending.letter.seq, sending.letter.stamp);
    let (kind, name) = message(&sending.letter.msg);
    let name = name_text(alloc, name)?;
    format!(in alloc; " -> {to}#{number}@{stamp} {kind} {name}").ok()
}

fn letters_text(alloc: Global, letters: &[Sending]) -> Option<String> {
    let mut text = String::new(alloc);
    for sending in letters {
        let letter = letter_text(alloc, sending)?;
        text.push_str(letter.as_str()).ok()?;
    }
    Some(text)
}

/// A line for an event: its node and stamp, its input and answer, and the letters that it issued.
fn event_text(alloc: Global, event: &Event) -> Option<String> {
    let (node, stamp) = (event.node.get(), event.stamp);
    let input = input_text(alloc, &event.input)?;
    let answer = answer_word(&event.done.answer);
    let letters = letters_text(alloc, event.done.letters.as_slice())?;
    format!(in alloc; "{node}@{stamp} {input}: {answer}{letters}\n").ok()
}

/// The lines of the events behind the first so many.
fn events_text(alloc: Global, events: &[Event], skipped: usize) -> Option<String> {
    let mut text = String::new(alloc);
    for event in events.iter().skip(skipped) {
        let line = event_text(alloc, event)?;
        text.push_str(line.as_str()).ok()?;
    }
    Some(text)
}

/// The events of a script's run at a seed, line by line, but the first so many.
fn events_of(alloc: Global, case: &Case, seed: u64, skipped: usize) -> Option<String> {
    let script = script_of(alloc, case)?;
    match run_script(alloc, script, seed, MANY) {
        Ok((run, _)) => events_text(alloc, run.history.as_slice(), skipped),
        Err(_) => None,
    }
}

#[test]
fn events_and_letters_of_runs(rt: HostRuntime) -> Result<(), Fail> {
    for (case, skipped, lines) in [
        (&ONE_READER, 7, EVENTS_OF_ONE_READER),
        (&TWO_READERS_ONE_WRITER, 7, EVENTS_OF_TWO_READERS_ONE_WRITER),
        (&CROSSED_WRITERS, 14, EVENTS_OF_CROSSED_WRITERS),
    ] {
        let events = events_of(rt.alloc(), case, 0, skipped).ok_or("no memory")?;
        assert_eq!(rt; events.as_str(), lines);
    }
    Ok(())
}

fn record_text(alloc: Global, record: &Record) -> Option<String> {
    let name = name_text(alloc, record.name)?;
    let (from, sent, got) = (record.from.get(), record.sent, record.got);
    format!(in alloc; "{name} from {from}: sent {sent}, got {got}\n").ok()
}

fn records_text(alloc: Global, records: &[Record]) -> Option<String> {
    let mut text = String::from_str(alloc, "node\n").ok()?;
    for record in records {
        let line = record_text(alloc, record)?;
        text.push_str(line.as_str()).ok()?;
    }
    Some(text)
}

/// A line for each record of a node.
fn node_text(alloc: Global, node: &Node) -> Option<String> {
    match node.view(alloc) {
        Ok(view) => records_text(alloc, view.records.as_slice()),
        Err(_) => None,
    }
}

fn nodes_text(alloc: Global, nodes: &[Node]) -> Option<String> {
    let mut text = String::new(alloc);
    for node in nodes {
        let lines = node_text(alloc, node)?;
        text.push_str(lines.as_str()).ok()?;
    }
    Some(text)
}

/// The records of each node at the end of a script's run.
fn records_of(alloc: Global, case: &Case, seed: u64) -> Option<String> {
    let script = script_of(alloc, case)?;
    match run_script(alloc, script, seed, MANY) {
        Ok((run, _)) => nodes_text(alloc, run.nodes.as_slice()),
        Err(_) => None,
    }
}

// Node 0 gave node 1 the anchor with the first letter, and 0.2 with the first and again with the second.
#[test]
fn records_of_two_nodes(rt: HostRuntime) -> Result<(), Fail> {
    for seed in 0..10 {
        let records = records_of(rt.alloc(), &ONE_READER, seed).ok_or("no memory")?;
        assert_eq!(rt;
            records.as_str(),
            "node\n0.1 from 1: sent 1, got 0\n0.2 from 1: sent 2, got 0\nnode\n",
            "seed {seed}"
        );
    }
    Ok(())
}

fn times(text: &str, words: &str) -> usize {
    text.split(words).skip(1).count()
}

// Node 1 and then node 0 become the owner of 0.2, for which the two readers give up their copies.
#[test]
fn ownership_moves_twice(rt: HostRuntime) -> Result<(), Fail> {
    for seed in 0..10 {
        let events = events_of(rt.alloc(), &TWO_READERS_ONE_WRITER, seed, 0).ok_or("no memory")?;
        let invals = times(events.as_str(), "Inval 0.2");
        let grants = times(events.as_str(), "WriteGrant 0.2");
        assert_eq!(rt; (invals, grants), (2, 2), "seed {seed}");
    }
    Ok(())
}
