ghost use Rattle.std.specs.Prelude.{◌≡◌, suc, [], ◌∷◌, ◌++◌, length, not, nat_lt, nat_le, IfOk, OnOk, true};
ghost use Rattle.te_reader.specs.declared.cause.Which.TheVariants as limits;
ghost use Rattle.te_reader.specs.declared.cause.Cause.TheVariants as causes;
ghost use Rattle.te_reader.specs.declared.part.Role.TheVariants as roles;
ghost use Rattle.te_reader.specs.Rules.{nothing_before, whole_event, is_variable, head_spelled, rules, first_broken};
ghost use Rattle.te_reader.specs.Rules.{check, fifth, too_long, too_deep, is_count, context_after, innermost};
ghost use Rattle.te_reader.specs.Rules.{depth_within, opened, closed_brace, in_innermost, reaching, behind_bar};
ghost use Rattle.te_reader.specs.Rules.{behind_name, in_scope, this_level, with_node, with_channel, with_statement};
ghost use Rattle.te_reader.specs.Rules.{with_named_register, begun};
ghost use Rattle.te_terms.specs.Values.{fits_i64};
ghost use Rattle.te_reader.specs.Integers.{integer_value};
ghost use Rattle.te_reader.specs.Finding.{lexeme_head};

use crate::brace::Brace;
use crate::cause::{Cause, Which};
use crate::integer::{count, integer};
use crate::label::Label;
use crate::name_set::NameSet;
use crate::part::Role;
use crate::stack::Stack;
use crate::token::Lexeme;
use std::alloc::Global;
use std::marker::Model;
use te_terms::NoMemory;

/// What stands before a token, as far as rules ask for it.
#[derive(Drop)]
pub struct Context<'a> {
    channels: NameSet<'a>,
    threads: NameSet<'a>,
    registers: NameSet<'a>,
    statements: usize,
    written: &'a [u8],
    inners: NameSet<'a>,
    bound: Stack<Label<'a>>,
    braces: Stack<Brace>,
    nodes: usize,
    fresh: usize,
    calculations: usize,
}

impl<'a> Model for Context<'a> {
    ghost use Rattle.te_reader.specs.Rules.{Context as Before};

    ghost Value = { Before };

    ghost view = { λ c. record {
      channels = c.channels;
      threads = c.threads;
      registers = c.registers;
      statements = c.statements;
      written = c.written.now;
      inners = c.inners;
      bound = c.bound;
      braces = c.braces;
      nodes = c.nodes;
      fresh = c.fresh;
      calculations = c.calculations;
    } };
}

// The bytes of a name or an integer.
fn spelling<'a>(lexeme: Lexeme<'a>) -> &'a [u8]
    ensures { result.now ≡ head_spelled (lexeme_head lexeme.entry) }
{
    match lexeme {
        Lexeme::Name(spelling) | Lexeme::Inner(spelling) | Lexeme::Integer(spelling) => spelling,
        _ => b"",
    }
}

fn too_long(name: &[u8]) -> Option<Cause>
    ensures { result ≡ first_broken (too_long name.now ∷ []) }
{
    if name.len() > 32 {
        Some(Cause::Limit(Which::Name))
    } else {
        None
    }
}

// Whether an integer is one of 64 bits.
#[tactic(auto, unfolding(crate::specs::NameReads::integer_read))]
fn is_in_range(digits: &[u8]) -> bool
    ensures { result ≡ fits_i64 (integer_value digits.now) }
{
    match integer(digits) {
        Some(_) => true,
        None => false,
    }
}

// How often a repeat is done: from 1 to 10,000 times.
fn times_fault(lexeme: Lexeme<'_>) -> Option<Cause>
    ensures { result ≡ first_broken (check (not (fits_i64 (integer_value (head_spelled (lexeme_head lexeme.entry)))))
        causes.Integer ∷ check (not (is_count (integer_value (head_spelled (lexeme_head lexeme.entry)))))
        (causes.Limit limits.Repeat) ∷ []) }
{
    if !is_in_range(spelling(lexeme)) {
        return Some(Cause::Integer);
    }
    match count(spelling(lexeme)) {
        Some(_) => None,
        None => Some(Cause::Limit(Which::Repeat)),
    }
}

// One more, or no memory where no count fits.
fn one_more(n: usize) -> Result<usize, NoMemory>
    ensures { IfOk result (λ m. m ≡ suc n) }
{
    match n.checked_add(1) {
        Some(m) => Ok(m),
        None => Err(NoMemory),
    }
}

impl<'a> Context<'a> {
    /// At the front of a script. It takes no memory.
    pub fn new(alloc: Global) -> Context<'a>
        ensures { result ≡ nothing_before }
    {
        Context {
            channels: NameSet::new(alloc),
            threads: NameSet::new(alloc),
            registers: NameSet::new(alloc),
            statements: 0,
            written: b"",
            inners: NameSet::new(alloc),
            bound: Stack::new(alloc),
            braces: Stack::new(alloc),
            nodes: 0,
            fresh: 0,
            calculations: 0,
        }
    }

    fn is_variable(&self, lexeme: Lexeme<'_>) -> bool
        ensures { result ≡ is_variable self.now (lexeme_head lexeme.entry) }
    {
        match lexeme {
            Lexeme::Name(name) => self.registers.contains(name) || self.inners.contains(name),
            Lexeme::Inner(name) => self.inners.contains(name),
            _ => false,
        }
    }

    fn channel_fault(&self, lexeme: Lexeme<'_>) -> Option<Cause>
        ensures { result ≡ first_broken (rules roles.ChannelName self.now (lexeme_head lexeme.entry)) }
    {
        let name = spelling(lexeme);
        if self.channels.contains(name) {
            return Some(Cause::Twice);
        }
        if name.len() > 32 {
            return Some(Cause::Limit(Which::Name));
        }
        if self.channels.len() >= 256 {
            return Some(Cause::Limit(Which::Channels));
        }
        None
    }

    fn thread_fault(&self, lexeme: Lexeme<'_>) -> Option<Cause>
        ensures { result ≡ first_broken (rules roles.ThreadName self.now (lexeme_head lexeme.entry)) }
    {
        let name = spelling(lexeme);
        if self.threads.contains(name) {
            return Some(Cause::Twice);
        }
        too_long(name)
    }

    fn register_fault(&self, lexeme: Lexeme<'_>) -> Option<Cause>
        ensures { result ≡ first_broken (rules roles.Register self.now (lexeme_head lexeme.entry)) }
    {
        let name = spelling(lexeme);
        if self.channels.contains(name) {
            return Some(Cause::Shadow);
        }
        if name.len() > 32 {
            return Some(Cause::Limit(Which::Name));
        }
        if self.statements >= 1024 {
            return Some(Cause::Limit(Which::Statements));
        }
        if !self.registers.contains(name) && self.registers.len() >= 8 {
            return Some(Cause::Limit(Which::Registers));
        }
        None
    }

    fn bound_fault(&self, lexeme: Lexeme<'_>) -> Option<Cause>
        ensures { result ≡ first_broken (rules roles.PartName self.now (lexeme_head lexeme.entry)) }
    {
        let name = spelling(lexeme);
        if self.channels.contains(name)
            || self.registers.contains(name)
            || self.inners.contains(name)
        {
            return Some(Cause::Shadow);
        }
        too_long(name)
    }

    fn end_fault(&self) -> Option<Cause>
        ensures { result ≡ first_broken (check (nat_lt 32 (depth_within (innermost self.now.braces)))
            (causes.Limit limits.Depth) ∷ check (nat_lt 4096 self.now.nodes) (causes.Limit limits.Nodes) ∷ []) }
    {
        let brace = self.innermost();
        if brace.settled.max(brace.deepest) > 32 {
            return Some(Cause::Limit(Which::Depth));
        }
        if self.nodes > 4096 {
            return Some(Cause::Limit(Which::Nodes));
        }
        None
    }

    fn fresh_fault(&self) -> Option<Cause>
        ensures { result ≡ first_broken (too_deep self.now ∷ check (nat_le 16 self.now.fresh) (causes.Limit limits.Fresh) ∷ []) }
    {
        if self.braces.len() > 32 {
            return Some(Cause::Limit(Which::Depth));
        }
        if self.fresh >= 16 {
            return Some(Cause::Limit(Which::Fresh));
        }
        None
    }

    fn fifth(&self, first: bool) -> Option<Cause>
        ensures { result ≡ first_broken (fifth first self.now ∷ []) }
    {
        if first && self.calculations >= 4 {
            return Some(Cause::Limit(Which::Atoms));
        }
        None
    }

    fn integer_fault(&self, lexeme: Lexeme<'_>, first: bool) -> Option<Cause>
        ensures { result ≡ first_broken (rules (roles.Integer first) self.now (lexeme_head lexeme.entry)) }
    {
        if !is_in_range(spelling(lexeme)) {
            return Some(Cause::Integer);
        }
        self.fifth(first)
    }

    fn operand_fault(&self, lexeme: Lexeme<'_>, first: bool) -> Option<Cause>
        ensures { result ≡ first_broken (rules (roles.Channel first) self.now (lexeme_head lexeme.entry)) }
    {
        if !self.channels.contains(spelling(lexeme)) {
            return Some(Cause::Unbound);
        }
        self.fifth(first)
    }

    fn variable_fault(&self, lexeme: Lexeme<'_>, first: bool) -> Option<Cause>
        ensures { result ≡ first_broken (rules (roles.Variable first) self.now (lexeme_head lexeme.entry)) }
    {
        if !self.is_variable(lexeme) {
            return Some(Cause::Unbound);
        }
        self.fifth(first)
    }

    /// The first rule that a token breaks in its role.
    pub fn fault(&self, role: Role, lexeme: Lexeme<'_>) -> Option<Cause>
        ensures { result ≡ first_broken (rules role self.now (lexeme_head lexeme.entry)) }
    {
        match role {
            Role::ChannelName => self.channel_fault(lexeme),
            Role::ThreadWord if self.threads.len() >= 64 => Some(Cause::Limit(Which::Threads)),
            Role::ThreadName => self.thread_fault(lexeme),
            Role::Register => self.register_fault(lexeme),
            Role::EmitWord | Role::RepeatWord if self.statements >= 1024 => {
                Some(Cause::Limit(Which::Statements))
            }
            Role::Times => times_fault(lexeme),
            Role::Leaf(_) | Role::Chain(_) | Role::Branch(_) if self.braces.len() > 32 => {
                Some(Cause::Limit(Which::Depth))
            }
            Role::Fresh => self.fresh_fault(),
            Role::SyncEnd => self.end_fault(),
            Role::PartName | Role::CatchName => self.bound_fault(lexeme),
            Role::Whole => self.variable_fault(lexeme, false),
            Role::Integer(first) => self.integer_fault(lexeme, first),
            Role::Channel(first) => self.operand_fault(lexeme, first),
            Role::Variable(first) => self.variable_fault(lexeme, first),
            Role::End if self.threads.len() == 0 => Some(Cause::NoThread),
            _ => None,
        }
    }

    fn innermost(&self) -> Brace
        ensures { result ≡ innermost self.now.braces }
    {
        match self.braces.top() {
            Some(brace) => brace,
            None => Brace {
                outer: 0,
                level: 1,
                deepest: 0,
                settled: 0,
            },
        }
    }

    fn open(&mut self, level: usize) -> Result<(), NoMemory>
        ensures { OnOk result (self.new ≡ opened level self.old) }
    {
        let outer = self.inners.len();
        self.braces.push(Brace {
            outer,
            level,
            deepest: 0,
            settled: 0,
        })
    }

    fn reach(&mut self, depth: usize) -> Result<(), NoMemory>
        ensures { OnOk result (self.new ≡ in_innermost (reaching depth) self.old) }
    {
        let Some(mut brace) = self.braces.pop() else {
            return Ok(());
        };
        brace.deepest = brace.deepest.max(depth);
        self.braces.push(brace)
    }

    fn close(&mut self) -> Result<(), NoMemory>
        ensures { OnOk result (self.new ≡ closed_brace self.old.braces self.old) }
    {
        let Some(brace) = self.braces.pop() else {
            return Ok(());
        };
        self.inners.truncate(brace.outer);
        self.reach(brace.settled.max(brace.deepest))
    }

    fn pass_bar(&mut self) -> Result<(), NoMemory>
        ensures { OnOk result (self.new ≡ in_innermost behind_bar self.old) }
    {
        let Some(mut brace) = self.braces.pop() else {
            return Ok(());
        };
        brace.settled = brace.settled.max(one_more(brace.deepest)?);
        brace.deepest = 0;
        brace.level = one_more(brace.level)?;
        self.braces.push(brace)
    }

    fn pass_name(&mut self, name: &'a [u8]) -> Result<(), NoMemory>
        ensures { OnOk result (self.new ≡ in_innermost behind_name (record self.old { bound = name.now ∷ self.old.bound })) }
    {
        self.bound.push(Label::new(name))?;
        let Some(mut brace) = self.braces.pop() else {
            return Ok(());
        };
        brace.level = one_more(brace.level)?;
        self.braces.push(brace)
    }

    fn pass_part(&mut self) -> Result<(), NoMemory>
        ensures { OnOk result (self.new ≡ in_scope self.old.bound self.old) }
    {
        match self.bound.pop() {
            Some(name) => self.inners.push(name.bytes()),
            None => Ok(()),
        }
    }

    fn end_sync(&mut self) -> Result<(), NoMemory>
        ensures { OnOk result (self.new ≡ record self.old { braces = []; registers = with_named_register self.old.registers self.old.written }) }
    {
        self.braces.clear();
        if self.registers.contains(self.written) {
            return Ok(());
        }
        self.registers.push(self.written)
    }

    fn add_node(&mut self) -> Result<(), NoMemory>
        ensures { OnOk result (self.new ≡ with_node self.old) }
    {
        self.nodes = one_more(self.nodes)?;
        Ok(())
    }

    fn add_statement(&mut self) -> Result<(), NoMemory>
        ensures { OnOk result (self.new ≡ with_statement self.old) }
    {
        self.statements = one_more(self.statements)?;
        Ok(())
    }

    fn add_calculation(&mut self) -> Result<(), NoMemory>
        ensures { OnOk result (self.new ≡ begun true self.old) }
    {
        self.calculations = one_more(self.calculations)?;
        Ok(())
    }

    fn begin_thread(&mut self)
        ensures { self.new ≡ record self.old { registers = []; statements = 0 } }
    {
        self.registers.truncate(0);
        self.statements = 0;
    }

    fn begin_sync(&mut self) -> Result<(), NoMemory>
        ensures { OnOk result (self.new ≡ record self.old { braces = whole_event ∷ []; nodes = 0; fresh = 0 }) }
    {
        self.nodes = 0;
        self.fresh = 0;
        self.braces.clear();
        self.braces.push(Brace {
            outer: 0,
            level: 1,
            deepest: 0,
            settled: 0,
        })
    }

    fn pass_leaf(&mut self) -> Result<(), NoMemory>
        ensures { OnOk result (self.new ≡ with_node (in_innermost (reaching (this_level self.old)) self.old)) }
    {
        self.reach(self.innermost().level)?;
        self.add_node()
    }

    fn pass_fresh(&mut self) -> Result<(), NoMemory>
        ensures { OnOk result (self.new ≡ with_channel (in_innermost (reaching (this_level self.old)) self.old)) }
    {
        self.pass_leaf()?;
        self.fresh = one_more(self.fresh)?;
        Ok(())
    }

    fn open_branch(&mut self) -> Result<(), NoMemory>
        ensures { OnOk result (self.new ≡ opened (suc (this_level self.old)) self.old) }
    {
        self.open(one_more(self.innermost().level)?)
    }

    fn bind_catch(&mut self, name: &'a [u8]) -> Result<(), NoMemory>
        ensures { OnOk result (self.new ≡ record (opened (suc (this_level self.old)) self.old) { inners = self.old.inners ++ name.now ∷ [] }) }
    {
        self.open_branch()?;
        self.inners.push(name)
    }

    fn write(&mut self, name: &'a [u8]) -> Result<(), NoMemory>
        ensures { OnOk result (self.new ≡ with_statement (record self.old { written = name.now })) }
    {
        self.written = name;
        self.add_statement()
    }

    fn bar(&mut self) -> Result<(), NoMemory>
        ensures { OnOk result (self.new ≡ with_node (in_innermost behind_bar self.old)) }
    {
        self.pass_bar()?;
        self.add_node()
    }

    fn bind_part(&mut self, name: &'a [u8]) -> Result<(), NoMemory>
        ensures { OnOk result (self.new ≡ with_node (in_innermost behind_name (record self.old { bound = name.now ∷ self.old.bound }))) }
    {
        self.pass_name(name)?;
        self.add_node()
    }

    fn end_tuple(&mut self)
        ensures { self.new ≡ record self.old { calculations = 0 } }
    {
        self.calculations = 0;
    }

    /// Goes on behind a token in its role.
    pub fn pass(&mut self, role: Role, lexeme: Lexeme<'a>) -> Result<(), NoMemory>
        ensures { OnOk result (self.new ≡ context_after role self.old (lexeme_head lexeme.entry)) }
    {
        let name = spelling(lexeme);
        match role {
            Role::ChannelName => self.channels.push(name),
            Role::ThreadWord => {
                self.begin_thread();
                Ok(())
            }
            Role::ThreadName => self.threads.push(name),
            Role::Register => self.write(name),
            Role::EmitWord | Role::RepeatWord => self.add_statement(),
            Role::SyncWord => self.begin_sync(),
            Role::SyncEnd => self.end_sync(),
            Role::Leaf(_) => self.pass_leaf(),
            Role::Fresh => self.pass_fresh(),
            Role::Branch(_) => self.add_node(),
            Role::OpenChain => self.open(self.innermost().level),
            Role::OpenBranch => self.open_branch(),
            Role::Close => self.close(),
            Role::Bar => self.bar(),
            Role::PartName => self.bind_part(name),
            Role::PartEnd => self.pass_part(),
            Role::CatchName => self.bind_catch(name),
            Role::Integer(first) | Role::Channel(first) | Role::Variable(first) if first => {
                self.add_calculation()
            }
            Role::TupleEnd => {
                self.end_tuple();
                Ok(())
            }
            _ => Ok(()),
        }
    }
}
