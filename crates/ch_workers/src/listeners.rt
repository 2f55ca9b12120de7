ghost use Rattle.std.specs.Prelude.{◌≡◌, ◌+◌, ◌<◌, ◌≤◌, ◌++◌, [], All, IfOk, IsSomeAnd, length, option_to_list, vec_len};

use crate::listener::Listener;
use ch_estimate::Estimator;
use std::alloc::{AllocError, Global};
use std::collections::VecDeque;

/// The estimators of a worker: the current one, by which it chooses, and those that come later, which received nothing.
#[derive(Drop)]
pub(crate) struct Listeners<E: Estimator> {
    current: Option<Listener<E>>,
    later: VecDeque<Listener<E>>,
    /// How many commits the worker has made by the current one.
    commits: u64,
    ghost untold: { All (λ l. l.told ≡ 0) later.items },
}

impl<E: Estimator> Listeners<E> {
    /// The estimators of a list, which have received nothing: the first is the current one. An empty list has none.
    pub(crate) fn new(alloc: Global, estimators: Vec<E>) -> Result<Listeners<E>, AllocError>
        requires untold { All (λ estimator. E.heard estimator ≡ []) estimators.items }
    {
        let mut later = untold(alloc, estimators)?;
        let current = later.pop_front();
        Ok(Listeners {
            current,
            later,
            commits: 0,
        })
    }

    /// The estimator by which the worker chooses, if it has one.
    pub(crate) fn current(&mut self) -> Option<&mut Listener<E>> {
        self.current.as_mut()
    }

    /// Counts a commit by the current estimator. Where `stint` have been made by it, and there is a later one, it drops
    /// the current one and goes on with the next, which received nothing yet.
    pub(crate) fn committed(&mut self, stint: u64)
        ensures counted { self.old.commits + 1 < stint → self.new.commits ≡ self.old.commits + 1 }
        ensures same { self.old.commits + 1 < stint → self.new.current ≡ self.old.current }
        ensures same_later { self.old.commits + 1 < stint → self.new.later.items ≡ self.old.later.items }
        ensures next { stint ≤ self.old.commits + 1 → 0 < length self.old.later.items → option_to_list self.new.current ++ self.new.later.items ≡ self.old.later.items }
        ensures untold { stint ≤ self.old.commits + 1 → 0 < length self.old.later.items → IsSomeAnd self.new.current (λ l. l.told ≡ 0) }
        ensures anew { stint ≤ self.old.commits + 1 → 0 < length self.old.later.items → self.new.commits ≡ 0 }
        ensures last { length self.old.later.items ≡ 0 → self.new.current ≡ self.old.current }
        ensures none_later { length self.old.later.items ≡ 0 → length self.new.later.items ≡ 0 }
    {
        self.commits = self.commits.saturating_add(1);
        if self.commits >= stint {
            self.take_next();
        }
    }

    /// Drops the current estimator and takes the next one in its place, where there is one.
    fn take_next(&mut self)
        ensures next { 0 < length self.old.later.items → option_to_list self.new.current ++ self.new.later.items ≡ self.old.later.items }
        ensures untold { 0 < length self.old.later.items → IsSomeAnd self.new.current (λ l. l.told ≡ 0) }
        ensures anew { 0 < length self.old.later.items → self.new.commits ≡ 0 }
        ensures last { length self.old.later.items ≡ 0 → self.new.current ≡ self.old.current }
        ensures none_later { length self.old.later.items ≡ 0 → length self.new.later.items ≡ 0 }
    {
        if let Some(next) = self.later.pop_front() {
            self.current = Some(next);
            self.commits = 0;
        }
    }

    /// Drops all estimators.
    pub(crate) fn clear(&mut self)
        ensures none { self.new.current ≡ None }
        ensures none_later { length self.new.later.items ≡ 0 }
    {
        self.current = None;
        self.later.clear();
    }
}

/// The estimators of each list.
pub(crate) fn listeners_of<E: Estimator>(
    alloc: Global,
    lists: Vec<Vec<E>>,
) -> Result<Vec<Listeners<E>>, AllocError>
    requires untold { All (λ list. All (λ estimator. E.heard estimator ≡ []) list.items) lists.items }
    ensures count { IfOk result (λ made. vec_len made ≡ vec_len lists) }
{
    let mut made = Vec::new(alloc);
    'lists: for list in lists {
        made.push(Listeners::new(alloc, list)?)?;
    }
    Ok(made)
}

/// Estimators with the number of entries that they received: none.
fn untold<E: Estimator>(
    alloc: Global,
    estimators: Vec<E>,
) -> Result<VecDeque<Listener<E>>, AllocError>
    requires untold { All (λ estimator. E.heard estimator ≡ []) estimators.items }
    ensures untold { IfOk result (λ made. All (λ l. l.told ≡ 0) made.items) }
{
    let mut made = Vec::new(alloc);
    'estimators: for estimator in estimators {
        made.push(Listener::new(estimator))?;
    }
    Ok(VecDeque::from_vec(made))
}
