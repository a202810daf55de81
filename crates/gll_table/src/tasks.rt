//! How workers take tasks.
ghost use Rattle.std.specs.Prelude.{◌≡◌, All, IfNone, IfSome, None};
ghost use Rattle.gll_table.specs.Tasks.{IsTakenFrom};

/// Takes a task out of its place, for the worker `me`, a number from 0, of so many workers. The places are dealt to them in order, to
/// each about as many: it looks from where its own begin to the last, and then from the first. It answers None only where no task is
/// left.
pub fn take_from<T: Drop>(tasks: &mut Vec<Option<T>>, me: u32, workers: u32) -> Option<T>
    ensures taken { IfSome result (λ task. IsTakenFrom tasks.old.items task tasks.new.items) }
    ensures none { IfNone result (All (λ place. place ≡ None) tasks.old.items) }
    ensures as_they_were { IfNone result (tasks.new.items ≡ tasks.old.items) }
{
    let count = tasks.len();
    let from = (me as usize).saturating_mul(count) / (workers.max(1) as usize);
    for k in from..count {
        if let Some(task) = tasks[k].take() {
            return Some(task);
        }
    }
    for k in 0..count {
        if let Some(task) = tasks[k].take() {
            return Some(task);
        }
    }
    None
}
