//! The output of any command, and a file for each that builds an index; `grid` alone reads no input.
ghost use Rattle.chl_inputs.specs.Stages.{Conforms};
ghost use Rattle.chl_answers.specs.Commands.{stage_of};
ghost use Rattle.chl_words.specs.Asking.{IsWithinLimits};

mod build;
mod grid;
mod list;
mod solve;

use build::build_output;
use chl_inputs::Stop;
use chl_outputs::{
    audit_output, degree_output, near_output, open_output, path_output, query_output, rank_output,
    text_output, trace_output, upgrade_output,
};
use chl_words::Asked;
use desk_io::{Desk, Gate};
use grid::grid_text;
use index_file::Pieces;
use list::list_output;
use solve::solve_output;
use std::alloc::Global;
use std::sync::Wait;
use std::thread::Threads;

/// The bytes that a command gives, or why it gives none. It reads its inputs and works, and writes nothing.
pub fn output<R: Threads + Wait + Sync, D: Desk, G: Gate + Sync>(
    rt: &R,
    alloc: Global,
    asked: &Asked,
    desk: &mut D,
    gate: &G,
) -> Result<Pieces, Stop>
    requires { IsWithinLimits asked.now }
    ensures { Conforms D.Desk (stage_of asked.now) result desk.old desk.new }
{
    match asked {
        Asked::List { graph, order } => list_output(rt, alloc, graph, order, desk),
        Asked::Build {
            graph,
            order,
            version,
            construction,
            ..
        } => build_output(rt, alloc, graph, order, *version, *construction, desk, gate),
        Asked::Solve {
            graph,
            order,
            pairs,
            construction,
        } => solve_output(rt, alloc, graph, order, pairs, *construction, desk, gate),
        Asked::Query { index, pairs } => query_output(rt, alloc, index, pairs, desk),
        Asked::Path {
            graph,
            index,
            pairs,
        } => path_output(alloc, graph, index, pairs, desk),
        Asked::Trace { index, pairs } => trace_output(alloc, index, pairs, desk),
        Asked::Near {
            index,
            points,
            from,
            k,
        } => near_output(rt, alloc, index, points, from, *k, desk),
        Asked::Audit {
            graph,
            order,
            index,
        } => audit_output(rt, alloc, graph, order, index, desk),
        Asked::Upgrade { graph, index, .. } => upgrade_output(rt, alloc, graph, index, desk),
        Asked::Open {
            graph,
            index,
            edits,
            version,
            ..
        } => open_output(rt, alloc, graph, index, edits, *version, desk),
        Asked::Degree { graph } => degree_output(alloc, graph, desk),
        Asked::Rank { graph } => rank_output(rt, alloc, graph, desk),
        Asked::Grid(grid) => text_output(alloc, grid_text(rt, alloc, *grid, gate)),
    }
}
