//! What servers are to who runs a script on them.
ghost use Rattle.std.specs.Prelude.{List, [], ◌∷◌, IfOk, IfErr};

/// Servers that act one line after another, and then finish.
pub trait Servers {
    /// What they are asked to do.
    type Line;

    /// What they say to a line.
    type Reply;

    /// What they tell when all is done.
    type Ending;
    /// Why they can't go on.
    type Fault;

    /// What they are at this moment.
    ghost State: { Type 0 };

    ghost state: { Self → Self.State };

    /// These lines may be acted from this state on.
    ghost fits: { Self.State → List Self.Line → Type 0 };

    /// The line may lead from a state to this reply and this state.
    ghost acts: { Self.State → Self.Line → Self.Reply → Self.State → Type 0 };

    /// From a state they may finish so, in this state.
    ghost finishes: { Self.State → Self.Ending → Self.State → Type 0 };

    /// From this state the line may be answered by this fault.
    ghost may_refuse: { Self.State → Self.Line → Self.Fault → Type 0 };

    /// From this state they may answer this fault where they are to finish.
    ghost may_break: { Self.State → Self.Fault → Type 0 };

    /// Acts a line. After a fault they are only dropped.
    fn act(&mut self, line: &Self::Line) -> Result<Self::Reply, Self::Fault>
        requires { Self.fits (Self.state self.old) (line.now ∷ []) }
        ensures acted { IfOk result (λ reply. Self.acts (Self.state self.old) line.now reply (Self.state self.new)) }
        ensures refused { IfErr result (λ fault. Self.may_refuse (Self.state self.old) line.now fault) };

    /// Brings all to an end. After a fault they are only dropped.
    fn finish(&mut self) -> Result<Self::Ending, Self::Fault>
        ensures ended { IfOk result (λ ending. Self.finishes (Self.state self.old) ending (Self.state self.new)) }
        ensures broke { IfErr result (λ fault. Self.may_break (Self.state self.old) fault) };

    /// Where lines fit, the first of them fits alone.
    ghost first_fits: { (s : Self.State) (x : Self.Line) (xs : List Self.Line) → Self.fits s (x ∷ xs) → Self.fits s (x ∷ []) };

    /// And once it was acted, the others fit.
    ghost others_fit: { (s : Self.State) (x : Self.Line) (xs : List Self.Line) (r : Self.Reply) (t : Self.State) →
        Self.fits s (x ∷ xs) → Self.acts s x r t → Self.fits t xs };
}
