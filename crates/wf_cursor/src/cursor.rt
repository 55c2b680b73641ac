//! A cursor over the tokens of a text.
ghost use Rattle.std.specs.Prelude.{◌≡◌, ◌≤◌, ◌<◌, ◌^◌, true, None, length, drop, slice_range, IfOk, IfSome, OnOk, OnErr};
ghost use Rattle.wf_model.specs.Limits.{max_tokens};
ghost use Rattle.wf_cursor.specs.Input as spec;
ghost use Rattle.wf_cursor.specs.Input.{Reads, ReadsExactly, HasRoom, chart_with};

use crate::TextFault;
use crate::names::{Declared, Names};
use crate::piece::{Piece, piece_of, same_piece};
use crate::value::{number_up_to, short_text};
use std::alloc::Global;
use std::marker::Model;
use wf_lex::Token;
use wf_model::limits::{MAX_INT, MAX_NAME, MAX_NODES};
use wf_model::{
    ActId, Activity, Chart, Event, EventId, List, Name, NoMemory, State, StateId, Transition, Txt,
    UnitId, VarId, Variable,
};

/// What is left of the tokens, with the parts and the names that were declared so far.
///
/// A call that takes a token of a kind answers `Syntax` where the next token is of another kind or there is none. Then
/// `Oversize` comes where it is too large: a name of over 32 bytes, a Text of over 64 characters, an Int above its
/// limit. Then come `UnknownName` and `DoubleName`. At a fault, running out of memory included, a call leaves the
/// cursor as it was.
#[derive(Drop)]
pub struct Cursor<'a> {
    text: &'a [u8],
    tokens: &'a [Token],
    at: usize,
    units: List<Name>,
    events: List<Event>,
    vars: List<Variable>,
    acts: List<Activity>,
    states: List<State>,
    names: Names,
    nodes: usize,
}

impl<'a> Model for Cursor<'a> {
    ghost use Rattle.std.specs.Prelude.{◌≤◌, ◌+◌, length, drop};
    ghost use Rattle.wf_model.specs.Limits.{max_tokens};
    ghost use Rattle.wf_cursor.specs.Input.{Input};

    ghost Value = { Input };

    ghost view = { λ c. record { text = c.text.now; left = drop c.at c.tokens.now; at = c.at; units = c.units; events = c.events; vars = c.vars; acts = c.acts; states = c.states; names = c.names; nodes = c.nodes } };

    // Each declaration takes a token of its own, so the counts fit the numbers of the parts.
    ghost invariant = { λ c. (c.at ≤ length c.tokens.now) × (length c.tokens.now ≤ max_tokens) × (length c.units ≤ c.at) × (length c.events ≤ c.at + 1) × (length c.vars ≤ c.at) × (length c.acts ≤ c.at) × (length c.states ≤ c.at) };
}

// The bytes from the first place to before the second, as far as there are any.
fn slice_of(text: &[u8], start: u32, end: u32) -> &[u8]
    ensures { result.now ≡ slice_range text.now start end }
{
    let rest = &text[(start as usize).min(text.len())..];
    &rest[..(end.saturating_sub(start) as usize).min(rest.len())]
}

impl<'a> Cursor<'a> {
    /// Before the first token, with the event `fault` declared.
    #[tactic(auto, unfolding(crate::specs::Input::start_of))]
    pub fn new(alloc: Global, text: &'a [u8], tokens: &'a [Token]) -> Result<Cursor<'a>, NoMemory>
        requires { length tokens.now ≤ max_tokens }
        ensures { IfOk result (λ cursor. cursor ≡ spec.start_of text.now tokens.now) }
    {
        let mut names = Names::new(alloc);
        names.declare(alloc, b"fault", Declared::Event(EventId(0)))?;
        let mut events = List::new(alloc);
        events.push(Event {
            name: Name::new(alloc, b"fault")?,
            unit: None,
        })?;
        Ok(Cursor {
            text,
            tokens,
            at: 0,
            units: List::new(alloc),
            events,
            vars: List::new(alloc),
            acts: List::new(alloc),
            states: List::new(alloc),
            names,
            nodes: 0,
        })
    }

    /// How many tokens are left.
    pub fn tokens_left(&self) -> usize
        ensures { result ≡ length self.now.left }
    {
        self.tokens.len() - self.at
    }

    #[tactic(auto, unfolding(crate::specs::Input::ahead))]
    fn next_token(&self) -> Option<Token>
        ensures value { result ≡ spec.ahead self.now }
        ensures some { IfSome result (λ _. 0 < length self.now.left) }
    {
        self.tokens.get(self.at).copied()
    }

    /// The bytes of the next token.
    #[tactic(auto, unfolding(crate::specs::Input::spelling))]
    pub fn spelling(&self) -> &'a [u8]
        ensures { result.now ≡ spec.spelling self.now }
    {
        match self.next_token() {
            Some(token) => slice_of(self.text, token.start, token.end),
            None => &[],
        }
    }

    /// What the next token is, if there is one.
    #[tactic(auto, unfolding(crate::specs::Input::piece, crate::specs::Input::spelling))]
    pub fn peek(&self) -> Option<Piece>
        ensures value { result ≡ spec.piece self.now }
        ensures some { IfSome result (λ _. 0 < length self.now.left) }
    {
        match self.next_token() {
            Some(token) => Some(piece_of(token.kind, self.spelling())),
            None => None,
        }
    }

    /// Takes the next token, if there is one.
    #[tactic(auto, unfolding(crate::specs::Input::next))]
    pub fn take(&mut self)
        ensures next { self.new ≡ spec.next self.old }
        ensures left { self.new.left ≡ drop 1 self.old.left }
        ensures room { 0 < length self.old.left → HasRoom self.new }
    {
        if self.at < self.tokens.len() {
            self.at += 1;
        }
    }

    /// The fault that no rule goes on with the next token.
    pub fn syntax(&self) -> TextFault
        ensures { result ≡ TextFault.Syntax self.now.at }
    {
        TextFault::Syntax { at: self.at }
    }

    /// The fault that the next token is too large, or one too many of its kind.
    pub fn oversize_fault(&self) -> TextFault
        ensures { result ≡ TextFault.Oversize self.now.at }
    {
        TextFault::Oversize { at: self.at }
    }

    fn unknown_name(&self) -> TextFault
        ensures { result ≡ TextFault.UnknownName self.now.at }
    {
        TextFault::UnknownName { at: self.at }
    }

    fn double_name(&self) -> TextFault
        ensures { result ≡ TextFault.DoubleName self.now.at }
    {
        TextFault::DoubleName { at: self.at }
    }

    /// Whether the next token is this one.
    #[tactic(auto, unfolding(crate::specs::Input::sees))]
    pub fn sees(&self, piece: Piece) -> bool
        ensures value { result ≡ spec.sees piece self.now }
        ensures some { result ≡ true → 0 < length self.now.left }
    {
        match self.peek() {
            Some(found) => same_piece(found, piece),
            None => false,
        }
    }

    /// Takes the next token if it is this one, and says whether it was.
    #[tactic(auto, unfolding(crate::specs::Input::eat))]
    pub fn eat(&mut self, piece: Piece) -> bool
        ensures { spec.eat piece self.old ≡ Ok (result, self.new) }
    {
        let found = self.sees(piece);
        if found {
            self.take();
        }
        found
    }

    /// Takes the next token, which has to be this one.
    #[tactic(auto, unfolding(crate::specs::Input::expect))]
    pub fn expect(&mut self, piece: Piece) -> Result<(), TextFault>
        ensures reads { ReadsExactly (spec.expect piece self.old) result self.new }
        ensures stays { OnErr result (self.new ≡ self.old) }
        ensures room { OnOk result (HasRoom self.new) }
    {
        if self.sees(piece) {
            self.take();
            Ok(())
        } else {
            Err(self.syntax())
        }
    }

    /// The next token has to be a name that isn't too long.
    #[tactic(auto, unfolding(crate::specs::Input::name_ahead))]
    fn name_ahead(&self) -> Result<(), TextFault>
        ensures reads { ReadsExactly (spec.name_ahead self.now) result self.now }
        ensures some { OnOk result (0 < length self.now.left) }
    {
        if !self.sees(Piece::Name) {
            Err(self.syntax())
        } else if self.spelling().len() > MAX_NAME {
            Err(self.oversize_fault())
        } else {
            Ok(())
        }
    }

    /// Takes a name, whether it is declared or not.
    #[tactic(auto, unfolding(crate::specs::Input::name))]
    pub fn name(&mut self, alloc: Global) -> Result<Name, TextFault>
        ensures reads { Reads (spec.name self.old) result self.new }
        ensures stays { OnErr result (self.new ≡ self.old) }
    {
        self.name_ahead()?;
        let name = Name::new(alloc, self.spelling())?;
        self.take();
        Ok(name)
    }

    /// What the next token is declared as.
    #[tactic(auto, unfolding(crate::specs::Input::declared))]
    fn declaration(&self) -> Option<Declared>
        ensures { result ≡ spec.declared self.now }
    {
        self.names.get(self.spelling())
    }

    #[tactic(auto, unfolding(crate::specs::Input::with_name, crate::specs::Input::declared))]
    fn declare(&mut self, alloc: Global, what: Declared) -> Result<(), NoMemory>
        requires { spec.declared self.old ≡ None }
        ensures ok { OnOk result (self.new ≡ spec.with_name what self.old) }
        ensures err { OnErr result (self.new ≡ self.old) }
    {
        let name = self.spelling();
        self.names.declare(alloc, name, what)
    }

    /// Takes a name that isn't declared yet, and declares it; `DoubleName` where it is. In constant time on average,
    /// beside the bytes of the name.
    #[tactic(auto, unfolding(crate::specs::Input::new_name))]
    pub fn new_name(&mut self, alloc: Global, what: Declared) -> Result<Name, TextFault>
        ensures reads { Reads (spec.new_name what self.old) result self.new }
        ensures stays { OnErr result (self.new ≡ self.old) }
    {
        self.name_ahead()?;
        if self.declaration().is_some() {
            return Err(self.double_name());
        }
        let name = Name::new(alloc, self.spelling())?;
        self.declare(alloc, what)?;
        self.take();
        Ok(name)
    }

    /// Takes the name of a unit.
    #[tactic(auto, unfolding(crate::specs::Input::unit))]
    pub fn unit(&mut self) -> Result<UnitId, TextFault>
        ensures reads { ReadsExactly (spec.unit self.old) result self.new }
        ensures stays { OnErr result (self.new ≡ self.old) }
        ensures room { OnOk result (HasRoom self.new) }
    {
        self.name_ahead()?;
        match self.declaration() {
            Some(Declared::Unit(unit)) => {
                self.take();
                Ok(unit)
            }
            _ => Err(self.unknown_name()),
        }
    }

    /// Takes the name of an event.
    #[tactic(auto, unfolding(crate::specs::Input::event))]
    pub fn event(&mut self) -> Result<EventId, TextFault>
        ensures reads { ReadsExactly (spec.event self.old) result self.new }
        ensures stays { OnErr result (self.new ≡ self.old) }
    {
        self.name_ahead()?;
        match self.declaration() {
            Some(Declared::Event(event)) => {
                self.take();
                Ok(event)
            }
            _ => Err(self.unknown_name()),
        }
    }

    /// Takes the name of a variable.
    #[tactic(auto, unfolding(crate::specs::Input::variable))]
    pub fn variable(&mut self) -> Result<VarId, TextFault>
        ensures reads { ReadsExactly (spec.variable self.old) result self.new }
        ensures stays { OnErr result (self.new ≡ self.old) }
    {
        self.name_ahead()?;
        match self.declaration() {
            Some(Declared::Var(variable)) => {
                self.take();
                Ok(variable)
            }
            _ => Err(self.unknown_name()),
        }
    }

    /// Takes the name of an activity.
    #[tactic(auto, unfolding(crate::specs::Input::activity))]
    pub fn activity(&mut self) -> Result<ActId, TextFault>
        ensures reads { ReadsExactly (spec.activity self.old) result self.new }
        ensures stays { OnErr result (self.new ≡ self.old) }
    {
        self.name_ahead()?;
        match self.declaration() {
            Some(Declared::Activity(activity)) => {
                self.take();
                Ok(activity)
            }
            _ => Err(self.unknown_name()),
        }
    }

    /// Takes the name of a state.
    #[tactic(auto, unfolding(crate::specs::Input::state))]
    pub fn state(&mut self) -> Result<StateId, TextFault>
        ensures reads { ReadsExactly (spec.state self.old) result self.new }
        ensures stays { OnErr result (self.new ≡ self.old) }
    {
        self.name_ahead()?;
        match self.declaration() {
            Some(Declared::State(state)) => {
                self.take();
                Ok(state)
            }
            _ => Err(self.unknown_name()),
        }
    }

    /// Takes an Int of at most this.
    #[tactic(auto, unfolding(crate::specs::Input::int_up_to))]
    fn int_up_to(&mut self, most: u64) -> Result<u64, TextFault>
        requires { most < u64.MAX }
        ensures reads { ReadsExactly (spec.int_up_to most self.old) result self.new }
        ensures stays { OnErr result (self.new ≡ self.old) }
        ensures fits { IfOk result (λ number. number ≤ most) }
    {
        if !self.sees(Piece::Int) {
            return Err(self.syntax());
        }
        match number_up_to(most, self.spelling()) {
            Some(number) => {
                self.take();
                Ok(number)
            }
            None => Err(self.oversize_fault()),
        }
    }

    /// Takes an Int of at most 9223372036854775807.
    #[tactic(auto, unfolding(crate::specs::Input::int))]
    pub fn int(&mut self) -> Result<u64, TextFault>
        ensures reads { ReadsExactly (spec.int self.old) result self.new }
        ensures stays { OnErr result (self.new ≡ self.old) }
        ensures fits { IfOk result (λ number. number < 2 ^ 63) }
    {
        self.int_up_to(MAX_INT)
    }

    /// Takes an Int that stands behind the `-` of a literal, so of at most 9223372036854775808.
    #[tactic(auto, unfolding(crate::specs::Input::negated_int))]
    pub fn negated_int(&mut self) -> Result<u64, TextFault>
        ensures reads { ReadsExactly (spec.negated_int self.old) result self.new }
        ensures stays { OnErr result (self.new ≡ self.old) }
        ensures fits { IfOk result (λ number. number ≤ 2 ^ 63) }
    {
        self.int_up_to(MAX_INT + 1)
    }

    /// Takes a Text of at most 64 characters.
    #[tactic(auto, unfolding(crate::specs::Input::text))]
    pub fn text(&mut self) -> Result<Txt, TextFault>
        ensures reads { ReadsExactly (spec.text self.old) result self.new }
        ensures stays { OnErr result (self.new ≡ self.old) }
    {
        if !self.sees(Piece::Text) {
            return Err(self.syntax());
        }
        match short_text(self.spelling()) {
            Some(text) => {
                self.take();
                Ok(text)
            }
            None => Err(self.oversize_fault()),
        }
    }

    /// Begins an expression, which has no node yet.
    #[tactic(auto, unfolding(crate::specs::Input::without_nodes))]
    pub fn forget_nodes(&mut self)
        ensures { self.new ≡ spec.without_nodes self.old }
    {
        self.nodes = 0;
    }

    /// Counts the node that the next token makes: `Oversize` where that is node 65 of the expression. Takes no token.
    #[tactic(auto, unfolding(crate::specs::Input::node))]
    pub fn node(&mut self) -> Result<(), TextFault>
        ensures reads { ReadsExactly (spec.node self.old) result self.new }
        ensures stays { OnErr result (self.new ≡ self.old) }
        ensures left { self.new.left ≡ self.old.left }
    {
        if self.nodes < MAX_NODES {
            self.nodes += 1;
            Ok(())
        } else {
            Err(self.oversize_fault())
        }
    }

    /// The number of the unit that is declared next.
    #[tactic(auto, unfolding(crate::specs::Input::next_unit))]
    pub fn next_unit(&self) -> UnitId
        ensures { result ≡ spec.next_unit self.now }
    {
        UnitId(self.units.len() as u32)
    }

    /// The number of the event that is declared next.
    #[tactic(auto, unfolding(crate::specs::Input::next_event))]
    pub fn next_event(&self) -> EventId
        ensures { result ≡ spec.next_event self.now }
    {
        EventId(self.events.len() as u32)
    }

    /// The number of the variable that is declared next.
    #[tactic(auto, unfolding(crate::specs::Input::next_var))]
    pub fn next_var(&self) -> VarId
        ensures { result ≡ spec.next_var self.now }
    {
        VarId(self.vars.len() as u32)
    }

    /// The number of the activity that is declared next.
    #[tactic(auto, unfolding(crate::specs::Input::next_act))]
    pub fn next_act(&self) -> ActId
        ensures { result ≡ spec.next_act self.now }
    {
        ActId(self.acts.len() as u32)
    }

    /// The number of the state that is declared next.
    #[tactic(auto, unfolding(crate::specs::Input::next_state))]
    pub fn next_state(&self) -> StateId
        ensures { result ≡ spec.next_state self.now }
    {
        StateId(self.states.len() as u32)
    }

    /// Adds a unit, for which a token was taken. In constant time on average.
    #[tactic(auto, unfolding(crate::specs::Input::with_unit))]
    pub fn add_unit(&mut self, name: Name) -> Result<(), NoMemory>
        requires { HasRoom self.old }
        ensures ok { OnOk result (self.new ≡ spec.with_unit name self.old) }
        ensures err { OnErr result (self.new ≡ self.old) }
    {
        self.units.push(name)
    }

    /// Adds an event, for which a token was taken. In constant time on average.
    #[tactic(auto, unfolding(crate::specs::Input::with_event))]
    pub fn add_event(&mut self, event: Event) -> Result<(), NoMemory>
        requires { HasRoom self.old }
        ensures ok { OnOk result (self.new ≡ spec.with_event event self.old) }
        ensures err { OnErr result (self.new ≡ self.old) }
    {
        self.events.push(event)
    }

    /// Adds a variable, for which a token was taken. In constant time on average.
    #[tactic(auto, unfolding(crate::specs::Input::with_var))]
    pub fn add_var(&mut self, var: Variable) -> Result<(), NoMemory>
        requires { HasRoom self.old }
        ensures ok { OnOk result (self.new ≡ spec.with_var var self.old) }
        ensures err { OnErr result (self.new ≡ self.old) }
    {
        self.vars.push(var)
    }

    /// Adds an activity, for which a token was taken. In constant time on average.
    #[tactic(auto, unfolding(crate::specs::Input::with_act))]
    pub fn add_act(&mut self, act: Activity) -> Result<(), NoMemory>
        requires { HasRoom self.old }
        ensures ok { OnOk result (self.new ≡ spec.with_act act self.old) }
        ensures err { OnErr result (self.new ≡ self.old) }
    {
        self.acts.push(act)
    }

    /// Adds a state, for which a token was taken. In constant time on average.
    #[tactic(auto, unfolding(crate::specs::Input::with_state))]
    pub fn add_state(&mut self, state: State) -> Result<(), NoMemory>
        requires { HasRoom self.old }
        ensures ok { OnOk result (self.new ≡ spec.with_state state self.old) }
        ensures err { OnErr result (self.new ≡ self.old) }
    {
        self.states.push(state)
    }

    /// The chart of all that was read. Takes no memory.
    #[tactic(auto, unfolding(crate::specs::Input::chart_with))]
    pub fn into_chart(self, name: Name, transitions: List<Transition>) -> Chart
        ensures { result ≡ chart_with name transitions self.entry }
    {
        let Cursor {
            units,
            events,
            vars,
            acts,
            states,
            names: _,
            ..
        } = self;
        Chart {
            name,
            units,
            events,
            vars,
            acts,
            states,
            transitions,
        }
    }
}
