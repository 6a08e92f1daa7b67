ghost use Rattle.std.specs.Prelude.{◌≡◌, ◌+◌, ◌++◌, ◌∷◌, [], None, IfOk, OnOk, length, reverse, slice_set};
ghost use Rattle.cov_modules.specs.Conditions.{IsFlattenable};
ghost use Rattle.cov_modules.specs.ModuleFaults.{modules_fault};
ghost use Rattle.cov_modules.specs.Modules.{module_names};
ghost use Rattle.cov_stops.specs.Touring.{HasRoom, IsTouring, entry_of};

use crate::counts::{defines, variables};
use crate::put_off::{PutOff, put_first, put_off_all};
use crate::stops::Entry;
use cov_modules::{Modules, main_place};
use cov_syntax::{NoMemory, Program, Seq};
use std::alloc::Global;

/// A flat walk: the stops so far with the numbers of their children, a stack of what is put off, and how many variables and DEFINEs there are so far.
#[derive(Drop)]
pub struct Tour {
    pub entries: Seq<Entry>,
    pub children: Seq<u32>,
    pub put_off: Seq<PutOff>,
    pub vars: usize,
    pub defines: usize,
}

impl Tour {
    /// A walk that begins with `main`.
    pub fn start(alloc: Global, p: &Program) -> Result<Tour, NoMemory>
        requires flattenable { IsFlattenable p.now }
        requires sound { modules_fault p.now ≡ None }
        ensures { IfOk result (λ t. IsTouring p.now t.entries t.children (reverse t.put_off) t.vars t.defines) }
    {
        let main = main_place(p).unwrap();
        let mut children = Seq::new(alloc);
        children.push(0)?;
        let mut put_off = Seq::new(alloc);
        put_off.push(PutOff {
            module: main,
            caller: 0,
            section: 0,
            place: 0,
            defines: 0,
        })?;
        Ok(Tour {
            entries: Seq::new(alloc),
            children,
            put_off,
            vars: 0,
            defines: 0,
        })
    }

    /// Notes the next stop, with its number at its place among the children.
    fn note(&mut self, x: PutOff) -> Result<(), NoMemory>
        requires { HasRoom x self.old.entries self.old.children self.old.vars self.old.defines }
        ensures { OnOk result (self.new ≡ record self.old {
          entries = self.old.entries ++ entry_of x self.old.vars self.old.defines (length self.old.children) ∷ [];
          children = slice_set self.old.children x.place (length self.old.entries);
        }) }
    {
        let number = self.entries.len() as u32;
        self.entries.push(Entry {
            module: x.module as u32,
            caller: x.caller as u32,
            section: x.section as u32,
            first_var: self.vars as u32,
            first_define: self.defines as u32,
            first_child: self.children.len() as u32,
        })?;
        self.children.replace(x.place, number);
        Ok(())
    }

    /// Walks to what was put off, and puts its own instances off.
    pub fn visit(
        &mut self,
        alloc: Global,
        p: &Program,
        modules: &Modules,
        x: PutOff,
    ) -> Result<(), NoMemory>
        requires flattenable { IsFlattenable p.now }
        requires sound { modules_fault p.now ≡ None }
        requires modules { modules.now ≡ module_names p.now }
        requires next { IsTouring p.now self.old.entries self.old.children (x ∷ reverse self.old.put_off) self.old.vars self.old.defines }
        ensures touring { OnOk result (IsTouring p.now self.new.entries self.new.children (reverse self.new.put_off) self.new.vars self.new.defines) }
        ensures further { OnOk result (length self.new.entries ≡ length self.old.entries + 1) }
    {
        let sections = p.modules.get(x.module).sections.as_slice();
        let number = self.entries.len();
        self.note(x)?;
        self.vars += variables(sections);
        self.defines += x.defines + defines(sections);
        let mut below = Seq::new(alloc);
        put_off_all(modules, number, sections, &mut below, &mut self.children)?;
        put_first(&below, &mut self.put_off)?;
        Ok(())
    }
}
