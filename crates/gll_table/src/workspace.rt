//! What a worker takes for a whole build.
ghost use Rattle.std.specs.Prelude.{◌≡◌, ◌+◌, ◌-◌, length, OnOk};

use crate::context::BuildContext;
use crate::named::Build;
use hub_index::NodeEntry;
use label_clean::{HubEntry, RunList};
use pool_view::OwnRows;
use pruned_tree::Work;
use std::alloc::{AllocError, Global};
use std::marker::{Model, PhantomData};

/// The memory of one worker for a whole build: that in which it grows trees, rows of its own, which are empty between two
/// supersteps, and lists: of what it put in one superstep, of the roots whose trees it grew, of what it put in the shards of the
/// table, and of what it put at the next roots.
#[derive(Drop)]
pub struct Workspace<B: Build> {
    pub own: OwnRows,
    pub work: Work,
    pub list: Vec<NodeEntry>,
    pub roots: Vec<u32>,
    pub parts: Vec<RunList>,
    pub hubs: Vec<HubEntry>,
    pub of: PhantomData<B>,
    ghost own_is: { own ≡ length B.order },
    ghost work_is: { work ≡ length B.order },
}

impl<B: Build> Workspace<B> {
    /// Memory for trees over the build's nodes. The only error is that memory ran out.
    pub fn new(context: &BuildContext<'_, B>) -> Result<Workspace<B>, AllocError> {
        let n = context.graph.n();
        let own = OwnRows::new(context.alloc, n)?;
        let work = Work::new(context.alloc, n)?;
        Ok(Workspace {
            own,
            work,
            list: Vec::new(context.alloc),
            roots: Vec::new(context.alloc),
            parts: Vec::new(context.alloc),
            hubs: Vec::new(context.alloc),
            of: PhantomData,
        })
    }

    /// Takes a list back, whose room is used again. The only error is that memory ran out.
    fn take_back(&mut self, list: RunList) -> Result<(), AllocError> {
        self.parts.push(list)?;
        Ok(())
    }
}

/// Workspaces of workers between two supersteps. Contracts see how many.
pub struct Workspaces<B: Build> {
    list: Vec<Workspace<B>>,
}

impl<B: Build> Model for Workspaces<B> {
    ghost use Rattle.std.specs.Prelude.{ℕ, vec_len};

    ghost Value = { ℕ };

    ghost view = { λ w. vec_len w.list };
}

// Written out, so that crates above prove no drop of what it holds.
impl<B: Build> Drop for Workspaces<B> {
    fn drop(self) {
        let Workspaces { list: _ } = self;
    }
}

impl<B: Build> Workspaces<B> {
    /// None.
    pub fn new(alloc: Global) -> Workspaces<B>
        ensures { result ≡ 0 }
    {
        Workspaces {
            list: Vec::new(alloc),
        }
    }

    /// Adds one. The only error is that memory ran out.
    pub fn add(&mut self, workspace: Workspace<B>) -> Result<(), AllocError>
        ensures { OnOk result (self.new ≡ self.old + 1) }
    {
        self.list.push(workspace)?;
        Ok(())
    }

    /// The last one, which goes out, or where there is none a new one. The only error is that memory ran out.
    pub fn take(&mut self, context: &BuildContext<'_, B>) -> Result<Workspace<B>, AllocError>
        ensures { OnOk result (self.new ≡ self.old - 1) }
    {
        match self.list.pop() {
            Some(workspace) => Ok(workspace),
            None => Workspace::new(context),
        }
    }

    /// Hands lists back, one to each workspace, whose room is used again. The only error is that memory ran out.
    pub fn hand_back(&mut self, lists: Vec<RunList>) -> Result<(), AllocError>
        ensures { self.new ≡ self.old }
    {
        let mut lists = lists;
        for k in 0..self.list.len() {
            if let Some(list) = lists.pop() {
                self.list[k].take_back(list)?;
            }
        }
        Ok(())
    }
}
