ghost use Rattle.std.specs.Prelude.{◌≡◌, ◌∷◌, [], ◌++◌, codes, IfOk, OnOk};
ghost use Rattle.std.specs.Fmt.{decimal};
ghost use Rattle.chl_lines.specs.PrintedGrids.{grid_line, grid_lines as lines_of_grid, size_line, totals_line};

use grid_work::Totals;
use itoa::Buffer;
use std::alloc::{AllocError, Global};

/// What there is to say of a grid whose index was built by three of the constructions.
#[derive(Clone, Copy, Debug, PartialEq, Eq)]
pub struct GridReport {
    pub side: u32,
    pub seed: u32,
    /// How many nodes the graph has.
    pub nodes: u32,
    /// How many edges it has.
    pub edges: usize,
    /// What the index by planted trees comes to.
    pub plant: Totals,
    /// What the index by pruned trees comes to.
    pub lcc: Totals,
    /// What the index by supersteps comes to.
    pub gll: Totals,
}

/// The five lines of a grid: `grid S X`, its side and its seed; `nodes N edges M`; and `plant E D`, `lcc E D` and `gll E D`
/// for the indexes by these constructions, with how many entries each has and the sum of all their distances.
pub fn grid_lines(alloc: Global, report: &GridReport) -> Result<Vec<u8>, AllocError>
    ensures { IfOk result (λ text. text.items ≡ lines_of_grid report.now) }
{
    let mut text = Vec::new(alloc);
    print_grid(&mut text, report.side, report.seed)?;
    print_size(&mut text, report.nodes, report.edges)?;
    print_totals(&mut text, b"plant", report.plant)?;
    print_totals(&mut text, b"lcc", report.lcc)?;
    print_totals(&mut text, b"gll", report.gll)?;
    Ok(text)
}

/// Puts the line of a grid's side and seed at the end of a text.
fn print_grid(text: &mut Vec<u8>, side: u32, seed: u32) -> Result<(), AllocError>
    ensures { OnOk result (text.new.items ≡ text.old.items ++ grid_line side seed) }
{
    let mut buffer = Buffer::new();
    text.extend_from_slice(b"grid ")?;
    text.extend_from_slice(buffer.format(side).as_bytes())?;
    text.push(b' ')?;
    text.extend_from_slice(buffer.format(seed).as_bytes())?;
    text.push(b'\n')?;
    Ok(())
}

/// Puts the line of a graph's size at the end of a text.
fn print_size(text: &mut Vec<u8>, nodes: u32, edges: usize) -> Result<(), AllocError>
    ensures { OnOk result (text.new.items ≡ text.old.items ++ size_line nodes edges) }
{
    let mut buffer = Buffer::new();
    text.extend_from_slice(b"nodes ")?;
    text.extend_from_slice(buffer.format(nodes).as_bytes())?;
    text.extend_from_slice(b" edges ")?;
    text.extend_from_slice(buffer.format(edges).as_bytes())?;
    text.push(b'\n')?;
    Ok(())
}

/// Puts the line of what an index by the construction of this name comes to at the end of a text.
fn print_totals(text: &mut Vec<u8>, name: &[u8], totals: Totals) -> Result<(), AllocError>
    ensures { OnOk result (text.new.items ≡ text.old.items ++ totals_line name.now totals) }
{
    let mut buffer = Buffer::new();
    text.extend_from_slice(name)?;
    text.push(b' ')?;
    text.extend_from_slice(buffer.format(totals.entries).as_bytes())?;
    text.push(b' ')?;
    text.extend_from_slice(buffer.format(totals.distances).as_bytes())?;
    text.push(b'\n')?;
    Ok(())
}
