// The Rust's `&mut Clausifier` but for its tables.
ghost use Rattle.std.specs.Prelude.{◌≡◌, ◌+◌, ◌<◌, ◌^◌, IfErr, OnErr};
ghost use Rattle.ir.specs.Visit.{visit_of};
ghost use Rattle.ir.specs.Counts.{visited, fresh_var, fresh_class, deferred_once, pushed, interned, at_line, vars_restarted};

use crate::refusal::Refusal;

#[derive(Clone, Copy)]
pub struct Counters {
    // what a clause changes stands together: visits begun, the next fresh variable, records in the clause and atom tables
    pub visits: u32,
    pub next_var: u32,
    pub clauses: u32,
    pub atoms: u32,
    // the next fresh class, records in the deferral table
    pub next_class: u32,
    pub deferrals: u32,
    // the axiom's line; 0 after the last axiom
    pub line: u32,
    // how many visits may begin
    pub limit: u32,
    // concepts and list members of the pool
    pub concepts: u32,
    pub members: u32,
    // the class of individual 0, and the header's options: these two never change
    pub nominal_base: u32,
    pub options: u32,
}

impl Counters {
    // One visit more, where there is one left.
    pub fn visit(&mut self) -> Result<(), Refusal>
        ensures self_after { visit_of self.new result ≡ visited self.old }
        ensures spent { IfErr result (λ e. e ≡ Refusal.VisitsSpent) }
        ensures kept { OnErr result (self.new ≡ self.old) }
    {
        if self.visits < self.limit {
            self.visits += 1;
            Ok(())
        } else {
            Err(Refusal::VisitsSpent)
        }
    }

    // A fresh variable. It and fresh_class are the Rust's own two, of one form.
    pub fn fresh_var(&mut self) -> u32
        requires { self.old.next_var + 1 < 2 ^ 32 }
        ensures result_value { result ≡ self.old.next_var }
        ensures self_after { self.new ≡ fresh_var self.old }
    {
        let v = self.next_var;
        self.next_var = v + 1;
        v
    }

    // A fresh class.
    pub fn fresh_class(&mut self) -> u32
        requires { self.old.next_class + 1 < 2 ^ 32 }
        ensures result_value { result ≡ self.old.next_class }
        ensures self_after { self.new ≡ fresh_class self.old }
    {
        let q = self.next_class;
        self.next_class = q + 1;
        q
    }

    // One deferral record more.
    pub fn defer(&mut self)
        requires { self.old.deferrals + 1 < 2 ^ 32 }
        ensures { self.new ≡ deferred_once self.old }
    {
        self.deferrals += 1;
    }

    // One clause record more, of m atoms.
    pub fn push(&mut self, m: u32)
        requires { (self.old.clauses + 1 < 2 ^ 32) × (self.old.atoms + m < 2 ^ 32) }
        ensures { self.new ≡ pushed m self.old }
    {
        self.clauses += 1;
        self.atoms += m;
    }

    // One concept record more, of m list members.
    pub fn intern(&mut self, m: u32)
        requires { (self.old.concepts + 1 < 2 ^ 32) × (self.old.members + m < 2 ^ 32) }
        ensures { self.new ≡ interned m self.old }
    {
        self.concepts += 1;
        self.members += m;
    }

    // At another axiom.
    pub fn at_line(&mut self, line: u32)
        ensures { self.new ≡ at_line line self.old }
    {
        self.line = line;
    }

    // The next fresh variable is 1 again: X is 0.
    pub fn restart_vars(&mut self)
        ensures { self.new ≡ vars_restarted self.old }
    {
        self.next_var = 1;
    }
}
