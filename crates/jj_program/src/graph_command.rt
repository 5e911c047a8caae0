//! The command `graph`: reads adjacency lists, then prints the topological order, the heads or the
//! closest common nodes of the ids of each request.
ghost use Rattle.std.specs.Prelude.{◌≡◌, ◌↔◌, ◌<◌, ◌++◌, ℕ, All, IsTrue, List, None, Some, if◌then◌else◌, Ok, IfOk, IfErr, OnOk, length, string_bytes};
ghost use Rattle.std.specs.List.{Contains};
ghost use Rattle.std.specs.Str.Parse.{digits_value};
ghost use Rattle.jj_program.specs.Lines.{IsFaultOf, Agrees, texts_of};
ghost use Rattle.jj_dag.specs.Graph.{Graph};
ghost use Rattle.jj_program.specs.ListedGraphs.{Represents, named_by, numbered_by};
ghost use Rattle.jj_program.specs.GraphCommand.{GraphState, HasCycle, is_number, IsLineOfRequest, IsGraphResult, graph_state, graph_step, number_kind, numbers_line, with_node, with_request};
ghost use Rattle.jj_program.specs.GraphViews.{IsPlain, ids_of, graph_request_of, graph_state_of};

use crate::edges::Edges;
use crate::fault::{Fault, LineFault};
use crate::forms::{Field, LineValues, Shape, parse_line};
use crate::lines::{Reading, take_lines};
use crate::listed_graph::ListedGraph;
use jj_dag::array_graph::Visited;
use jj_filter::failure::Failure;
use std::alloc::{AllocError, Global};

// A request with its ids.
#[derive(Drop)]
pub(crate) enum GraphRequest {
    Order(Vec<u64>),
    Heads(Vec<u64>),
    Common(Vec<u64>, Vec<u64>),
}

// The adjacency lists and the requests of the lines so far.
#[derive(Drop)]
pub(crate) struct GraphReading {
    edges: Edges,
    requests: Vec<GraphRequest>,
    // The ids of the last line.
    ids: LineValues<u64, u64>,
}

impl<'t> Field<'t> for u64 {
    ghost Value = { ℕ };

    ghost value = { λ number. number };

    ghost kind = { number_kind };

    fn parse(_alloc: Global, text: &'t str) -> Result<u64, Failure<LineFault>> {
        match parse_number(text) {
            Some(number) => Ok(number),
            None => Err(Failure::Input(LineFault::BadNumber)),
        }
    }
}

// Parses a decimal number below 2^64. A sign and leading zeros are invalid.
fn parse_number(text: &str) -> Option<u64>
    ensures { result ≡ (if is_number text.now then Some (digits_value 10 text.now) else None) }
{
    let digits = text.as_bytes();
    if !is_plain(digits) {
        return None;
    }
    if digits.len() < 20 {
        return parse_digits(digits);
    }
    text.parse::<u64>().ok()
}

// Parses at most 19 digits, which cannot overflow.
fn parse_digits(digits: &[u8]) -> Option<u64>
    requires plain { IsPlain digits.now }
    requires short { length digits.now < 20 }
    ensures { result ≡ (if is_number digits.now then Some (digits_value 10 digits.now) else None) }
{
    let mut value = 0;
    for byte in digits {
        let digit = byte.wrapping_sub(b'0');
        if digit > 9 {
            return None;
        }
        value = value * 10 + digit as u64;
    }
    Some(value)
}

// Rejects the empty string, and strings that `u64::from_str` accepts with a leading `+` or leading
// zeros.
fn is_plain(text: &[u8]) -> bool
    ensures { IsTrue result ↔ IsPlain text.now }
{
    match text {
        [] => false,
        [first] => *first != b'+',
        [first, ..] => *first != b'0' && *first != b'+',
    }
}

// The action of a line.
#[derive(Clone, Copy)]
pub(crate) enum GraphForm {
    Node,
    Order,
    Heads,
    Common,
}

// The lines of `graph`; all fields are ids.
pub(crate) const GRAPH_FORMS: &[(&str, Shape, GraphForm)] = &[
    ("node", Shape::NonEmpty, GraphForm::Node),
    ("order", Shape::Any, GraphForm::Order),
    ("heads", Shape::Any, GraphForm::Heads),
    ("common", Shape::Dashed, GraphForm::Common),
];

impl GraphReading {
    // Performs the action of a line.
    fn perform(&mut self, alloc: Global, fields: &[&str]) -> Result<(), Failure<LineFault>>
        ensures { Agrees result (λ _. graph_state_of self.new)
            (graph_step (graph_state_of self.old) (texts_of fields.now)) }
    {
        let form = parse_line::<GraphForm, u64, u64>(alloc, GRAPH_FORMS, fields, &mut self.ids)?;
        match form {
            GraphForm::Node => self.list(),
            GraphForm::Order => {
                let ids = self.ids.take_firsts(alloc);
                self.push_request(GraphRequest::Order(ids))
            }
            GraphForm::Heads => {
                let ids = self.ids.take_firsts(alloc);
                self.push_request(GraphRequest::Heads(ids))
            }
            GraphForm::Common => {
                let set1 = self.ids.take_firsts(alloc);
                let set2 = self.ids.take_seconds(alloc);
                self.push_request(GraphRequest::Common(set1, set2))
            }
        }
    }

    // Adds the adjacency list of the first id of the line.
    fn list(&mut self) -> Result<(), Failure<LineFault>>
        ensures { Agrees result (λ _. graph_state_of self.new)
            (with_node (graph_state_of self.old) self.old.ids.firsts.items) }
    {
        let Some((id, neighbors)) = self.ids.firsts.split_first() else {
            return Ok(());
        };
        let is_first = self.edges.list(*id, neighbors)?;
        if !is_first {
            return Err(Failure::Input(LineFault::RepeatedNode));
        }
        Ok(())
    }

    // Appends a request.
    fn push_request(&mut self, request: GraphRequest) -> Result<(), Failure<LineFault>>
        ensures { Agrees result (λ _. graph_state_of self.new)
            (with_request (graph_state_of self.old) (graph_request_of request)) }
    {
        self.requests.push(request)?;
        Ok(())
    }
}

impl<'t> Reading<'t> for GraphReading {
    ghost State = { GraphState };

    ghost represents = { λ reading state. graph_state_of reading ≡ state };

    ghost step = { graph_step };

    fn take(&mut self, alloc: Global, fields: &[&'t str]) -> Result<(), Failure<LineFault>> {
        self.perform(alloc, fields)
    }
}

// Returns the output of `graph` for an input.
pub(crate) fn graph_output(alloc: Global, text: &str) -> Result<Vec<u8>, Failure<Fault>>
    ensures done { IfOk result (λ output. IsGraphResult text.now (Ok output.items)) }
    ensures fault { IfErr result (λ fault. IsFaultOf fault (graph_state text.now)) }
{
    let mut reading = GraphReading {
        // A line takes at least eight bytes or so, so that the table has room for dense ids.
        edges: Edges::new(alloc, text.len() as u64 / 8),
        requests: Vec::new(alloc),
        ids: LineValues::new(alloc),
    };
    take_lines(alloc, &mut reading, text)?;
    let GraphReading {
        edges,
        requests,
        ids: _,
    } = reading;
    // Without requests, neither numbering nor a search for cycles is needed.
    if requests.is_empty() {
        return Ok(Vec::new(alloc));
    }
    let requested = requested_ids(alloc, &requests)?;
    let graph = ListedGraph::new(alloc, &edges, &requested)?;
    let mut visited = Visited::new(alloc);
    let cyclic = graph.has_cycle();
    let mut output = String::new(alloc);
    for request in &requests {
        if cyclic {
            output.push_str("cycle\n")?;
        } else {
            push_result(alloc, &mut output, &mut visited, &graph, request)?;
        }
    }
    Ok(output.into_bytes())
}

// Collects the ids of all requests.
fn requested_ids(alloc: Global, requests: &[GraphRequest]) -> Result<Vec<u64>, AllocError>
    ensures { IfOk result (λ ids. All
        (λ request. All (Contains ids.items) (ids_of (graph_request_of request))) requests.now) }
{
    let mut ids = Vec::new(alloc);
    for request in requests {
        push_requested(&mut ids, request)?;
    }
    Ok(ids)
}

// Appends the ids of a request.
fn push_requested(ids: &mut Vec<u64>, request: &GraphRequest) -> Result<(), AllocError>
    ensures { OnOk result (ids.new.items
        ≡ ids.old.items ++ ids_of (graph_request_of request.now)) }
{
    match request {
        GraphRequest::Order(requested) => ids.extend_from_slice(requested.as_slice()),
        GraphRequest::Heads(requested) => ids.extend_from_slice(requested.as_slice()),
        GraphRequest::Common(set1, set2) => {
            ids.extend_from_slice(set1.as_slice())?;
            ids.extend_from_slice(set2.as_slice())
        }
    }
}

// Runs a request on an acyclic graph and appends its line to the output.
fn push_result(
    alloc: Global,
    output: &mut String,
    visited: &mut Visited,
    graph: &ListedGraph,
    request: &GraphRequest,
) -> Result<(), AllocError>
    requires acyclic { ¬ (HasCycle (numbered_by graph.now)) }
    requires named { All (Contains (named_by graph.now)) (ids_of (graph_request_of request.now)) }
    ensures { OnOk result ((line : List ℕ)
        × ((shown : Graph) → Represents graph.now shown
        → IsLineOfRequest shown (graph_request_of request.now) line)
        × (string_bytes output.new ≡ string_bytes output.old ++ line)) }
{
    match request {
        GraphRequest::Order(ids) => {
            let order = graph.greatest_order(alloc, visited, ids)?;
            push_numbers(output, "order", &order)
        }
        GraphRequest::Heads(ids) => {
            let heads = graph.heads(alloc, visited, ids)?;
            push_numbers(output, "heads", &heads)
        }
        GraphRequest::Common(set1, set2) => {
            let common = graph.closest_common_nodes(alloc, visited, set1, set2)?;
            push_numbers(output, "common", &common)
        }
    }
}

// Appends a line of TAB-separated numbers to the output, the name first.
fn push_numbers(output: &mut String, name: &str, numbers: &[u64]) -> Result<(), AllocError>
    ensures { OnOk result (string_bytes output.new ≡ string_bytes output.old
        ++ numbers_line name.now numbers.now) }
{
    output.push_str(name)?;
    for number in numbers {
        write!(output, "\t{number}")?;
    }
    output.push('\n')?;
    Ok(())
}
