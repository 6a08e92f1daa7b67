use cov_syntax::{NoMemory, Seq};
use std::alloc::Global;

/// A module whose instances are being walked, and which of them comes next.
#[derive(Clone, Copy)]
struct Frame {
    module: usize,
    next: usize,
}

/// A depth-first walk over the modules that puts the modules of a circle into one group, after Tarjan.
/// Whoever uses the ranks tests them: nothing rests on the walk but the time that is taken.
#[derive(Drop)]
struct GroupWalk {
    /// In which order the modules were met, from 1; 0 is not yet.
    numbers: Vec<usize>,
    /// The least number of an open module that a module leads to.
    lows: Vec<usize>,
    /// The rank of the group of a module; 0 is not yet.
    ranks: Vec<usize>,
    open: Vec<usize>,
    frames: Vec<Frame>,
    met: usize,
    groups: usize,
}

fn at(list: &[usize], i: usize) -> usize {
    list.get(i).copied().unwrap_or(0)
}

fn put(list: &mut Vec<usize>, i: usize, x: usize) {
    if let Some(slot) = list.get_mut(i) {
        *slot = x;
    }
}

fn child_at(children: &Seq<Seq<usize>>, frame: Frame) -> Option<usize> {
    let below = children.as_slice().get(frame.module)?;
    below.as_slice().get(frame.next).copied()
}

impl GroupWalk {
    fn new(alloc: Global, modules: usize) -> Result<GroupWalk, NoMemory> {
        Ok(GroupWalk {
            numbers: vec![in alloc; 0; modules]?,
            lows: vec![in alloc; 0; modules]?,
            ranks: vec![in alloc; 0; modules]?,
            open: Vec::new(alloc),
            frames: Vec::new(alloc),
            met: 0,
            groups: 0,
        })
    }

    fn enter(&mut self, module: usize) -> Result<(), NoMemory> {
        self.met = self.met.saturating_add(1);
        put(&mut self.numbers, module, self.met);
        put(&mut self.lows, module, self.met);
        self.open.push(module)?;
        self.frames.push(Frame { module, next: 0 })?;
        Ok(())
    }

    fn lower(&mut self, module: usize, number: usize) {
        let low = at(self.lows.as_slice(), module).min(number);
        put(&mut self.lows, module, low);
    }

    /// Goes along one instance.
    fn meet(&mut self, from: usize, to: usize) -> Result<(), NoMemory> {
        let number = at(self.numbers.as_slice(), to);
        if number == 0 {
            return self.enter(to);
        }
        if at(self.ranks.as_slice(), to) == 0 {
            self.lower(from, number);
        }
        Ok(())
    }

    /// Gives the group that a module began its rank.
    fn close(&mut self, module: usize) {
        self.groups = self.groups.saturating_add(1);
        for _ in 0..self.open.len() {
            if let Some(last) = self.open.pop() {
                put(&mut self.ranks, last, self.groups);
                if last == module {
                    break;
                }
            }
        }
    }

    /// Leaves the module of the last frame.
    fn leave(&mut self, module: usize) {
        let low = at(self.lows.as_slice(), module);
        if low == at(self.numbers.as_slice(), module) {
            self.close(module);
        }
        if let Some(parent) = self.frames.last().copied() {
            self.lower(parent.module, low);
        }
    }

    /// One step; none is left where there is no frame.
    fn step(&mut self, children: &Seq<Seq<usize>>) -> Result<bool, NoMemory> {
        let Some(frame) = self.frames.pop() else {
            return Ok(false);
        };
        match child_at(children, frame) {
            Some(to) => {
                let next = frame.next.saturating_add(1);
                self.frames.push(Frame {
                    module: frame.module,
                    next,
                })?;
                self.meet(frame.module, to)?;
            }
            None => self.leave(frame.module),
        }
        Ok(true)
    }

    fn walk(
        &mut self,
        children: &Seq<Seq<usize>>,
        root: usize,
        steps: usize,
    ) -> Result<(), NoMemory> {
        if at(self.numbers.as_slice(), root) != 0 {
            return Ok(());
        }
        self.enter(root)?;
        for _ in 0..steps {
            if !self.step(children)? {
                break;
            }
        }
        Ok(())
    }
}

/// More steps than a walk takes.
fn steps_of(children: &Seq<Seq<usize>>) -> usize {
    let mut steps = children.len().saturating_add(1);
    for below in children.as_slice() {
        steps = steps.saturating_add(below.len());
    }
    steps.saturating_mul(2)
}

/// A rank for each module: the modules of a circle have one, and others a greater one than those that they contain.
pub(crate) fn advised_ranks(
    alloc: Global,
    children: &Seq<Seq<usize>>,
) -> Result<Vec<usize>, NoMemory> {
    let mut groups = GroupWalk::new(alloc, children.len())?;
    let steps = steps_of(children);
    for root in 0..children.len() {
        groups.walk(children, root, steps)?;
    }
    let ranks = Vec::from_slice(alloc, groups.ranks.as_slice())?;
    Ok(ranks)
}
