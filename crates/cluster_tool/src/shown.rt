//! The lines of calls.
ghost use Rattle.std.specs.Prelude.{◌≡◌, ◌++◌, ◌+◌, IfOk, IfSome, IsTrue, OnOk, drop, map, string_bytes};
ghost use Rattle.osd.specs.Limits.{is_within_limits};
ghost use Rattle.placement.specs.Placement.{is_group_count};
ghost use Rattle.cluster_file.specs.Plan.{calls_of};
ghost use Rattle.cluster_file.specs.Text.{all_lines, asked_if, call_line, call_lines, end_text};
ghost use Rattle.std.proofs.Props.{props};
ghost use Rattle.cluster_tool.specs.Answers.{shown};
ghost use Rattle.cluster_tool.specs.Clustering.{groups_if};

use cluster_file::{PlannedCall, PlannedStep, push_asked, push_head, push_refused, push_replied};
use osd::Config;
use rados_client::{ExecError, ExecReply};
use std::alloc::{AllocError, Global};

/// The number of a cluster's groups, if the lines of calls are to show what was asked.
pub(crate) fn groups_if(is_shown: bool, config: &Config) -> Option<u64>
    requires { IsTrue (is_within_limits config.now) }
    ensures value { result ≡ groups_if is_shown config.now }
    ensures counted { IfSome result (λ n. IsTrue (is_group_count n)) }
{
    if is_shown { Some(config.groups) } else { None }
}

/// Appends the end of a call, which ends its line.
fn push_end(
    alloc: Global,
    text: &mut String,
    end: &Result<ExecReply, ExecError>,
) -> Result<(), AllocError>
    ensures { OnOk result (string_bytes text.new ≡ string_bytes text.old ++ end_text (shown end.now)) }
{
    match end {
        Ok(reply) => push_replied(alloc, text, reply.place(), reply.code(), reply.output()),
        Err(error) => push_refused(alloc, text, *error),
    }
}

/// The calls of a client, in their order.
fn calls_of<'a>(
    alloc: Global,
    client: usize,
    steps: &'a [PlannedStep],
) -> Result<Vec<&'a PlannedCall>, AllocError>
    ensures { IfOk result (λ v. map (λ c. c.now) v.items ≡ calls_of client steps.now) }
{
    let mut calls = Vec::new(alloc);
    for step in steps {
        if let PlannedStep::Call(call) = step {
            if call.client().get() as usize == client {
                calls.push(call)?;
            }
        }
    }
    Ok(calls)
}

/// A client by its number, its calls, and how they ended.
#[derive(Clone, Copy)]
struct Client<'a> {
    number: usize,
    calls: &'a [&'a PlannedCall],
    ends: &'a [Result<ExecReply, ExecError>],
}

/// The form of lines: the memory for them, and the number of groups if they show what was asked.
#[derive(Clone, Copy)]
struct Form {
    alloc: Global,
    groups: Option<u64>,
    ghost counted: { IfSome groups (λ n. IsTrue (is_group_count n)) } by { Prim.hlevel props },
}

impl Form {
    /// Appends what a call asked, if that is shown.
    fn push_asked(&self, text: &mut String, call: &PlannedCall) -> Result<(), AllocError>
        ensures { OnOk result (string_bytes text.new ≡ string_bytes text.old ++ asked_if self.now.groups call.now) }
    {
        match self.groups {
            Some(groups) => push_asked(self.alloc, text, groups, call),
            None => Ok(()),
        }
    }

    /// The rest of a call's line.
    fn push_call(
        &self,
        text: &mut String,
        call: &PlannedCall,
        end: &Result<ExecReply, ExecError>,
    ) -> Result<(), AllocError>
        ensures { OnOk result (string_bytes text.new ≡ string_bytes text.old ++
            (asked_if self.now.groups call.now ++ end_text (shown end.now))) }
    {
        self.push_asked(text, call)?;
        push_end(self.alloc, text, end)
    }

    /// The line of a client's call, if there is one at that place: what was to come from there on
    /// is it, and what is to come from the next place on.
    fn push_line(
        &self,
        text: &mut String,
        client: &Client<'_>,
        place: usize,
    ) -> Result<(), AllocError>
        ensures { OnOk result (string_bytes text.new ++
            call_lines self.now.groups client.now.number (place + 1) (map
            (λ c. c.now) (drop (place + 1) client.now.calls.now)) (map shown (drop (place + 1) client.now.ends.now))
            ≡ string_bytes text.old ++ call_lines self.now.groups client.now.number place
            (map (λ c. c.now) (drop place client.now.calls.now)) (map shown (drop place client.now.ends.now))) }
    {
        let Some(call) = client.calls.get(place) else {
            return Ok(());
        };
        let Some(end) = client.ends.get(place) else {
            return Ok(());
        };
        push_head(text, client.number, place)?;
        self.push_call(text, *call, end)
    }

    /// The lines of a client's calls.
    fn push_client(&self, text: &mut String, client: &Client<'_>) -> Result<(), AllocError>
        ensures { OnOk result (string_bytes text.new ≡ string_bytes text.old ++
            call_lines self.now.groups client.now.number 0 (map (λ c. c.now) client.now.calls.now)
            (map shown client.now.ends.now)) }
    {
        for place in 0..client.ends.len() {
            self.push_line(text, client, place)?;
        }
        Ok(())
    }

    /// The lines of a client's calls of these steps.
    fn push_ends(
        &self,
        text: &mut String,
        number: usize,
        steps: &[PlannedStep],
        ends: &[Result<ExecReply, ExecError>],
    ) -> Result<(), AllocError>
        ensures { OnOk result (string_bytes text.new ≡ string_bytes text.old ++
            call_lines self.now.groups number 0 (calls_of number steps.now) (map shown ends.now)) }
    {
        let calls = calls_of(self.alloc, number, steps)?;
        let client = Client {
            number,
            calls: &calls,
            ends,
        };
        self.push_client(text, &client)
    }
}

/// The line of a call, by its client and its number among that client's; if the number of groups is
/// given, with what was asked.
pub(crate) fn line_of(
    alloc: Global,
    groups: Option<u64>,
    head: (usize, usize),
    call: &PlannedCall,
    end: &Result<ExecReply, ExecError>,
) -> Result<String, AllocError>
    requires { IfSome groups (λ n. IsTrue (is_group_count n)) }
    ensures { IfOk result (λ t. string_bytes t ≡ call_line groups head.0 head.1 call.now (shown end.now)) }
{
    let form = Form { alloc, groups };
    let mut text = String::new(alloc);
    push_head(&mut text, head.0, head.1)?;
    form.push_call(&mut text, call, end)?;
    Ok(text)
}

/// The lines of all calls of these steps, by client from 1 on; if the number of groups is given,
/// with what was asked.
pub(crate) fn lines_of(
    alloc: Global,
    groups: Option<u64>,
    steps: &[PlannedStep],
    ends: &[Vec<Result<ExecReply, ExecError>>],
) -> Result<String, AllocError>
    requires { IfSome groups (λ n. IsTrue (is_group_count n)) }
    ensures { IfOk result (λ t. string_bytes t ≡
        all_lines groups steps.now 1 (map (map shown) (map (λ v. v.items) ends.now))) }
{
    let mut text = String::new(alloc);
    for (before, calls) in ends.iter().enumerate() {
        let form = Form { alloc, groups };
        form.push_ends(&mut text, before + 1, steps, calls)?;
    }
    Ok(text)
}
