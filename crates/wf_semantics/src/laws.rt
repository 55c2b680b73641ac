//! Laws of configurations, entry trees and the walk, for every accepted chart.
ghost use Rattle.wf_semantics.specs.Laws.{DefaultIsConfiguration, WalkKeepsConfigurations, TreesRead, ConfigurationIsItsBits, ScopeIsLowest, EntryTreeFits, WalkFiresByRule, WalkMovesByRule, RunGoesByRule};

/// The default tree of the root is a configuration.
pub fn default_is_configuration()
    ensures { DefaultIsConfiguration }
{}

/// Whichever transitions are enabled, the walk leads from a configuration to a configuration.
pub fn walk_keeps_configurations()
    ensures { WalkKeepsConfigurations }
{}

/// How default trees and entry trees read, state by state, with no bound on their depth: a basic state is itself, an Or state
/// has the tree of the child that is picked, and an And state those of all its children.
pub fn trees_read()
    ensures { TreesRead }
{}

/// A configuration is the tree that its bits give, so two configurations with the same states in are equal.
pub fn configuration_is_its_bits()
    ensures { ConfigurationIsItsBits }
{}

/// The scope of a transition is an Or state above its source and its target, and each other such state is above the scope.
pub fn scope_is_lowest()
    ensures { ScopeIsLowest }
{}

/// The entry tree of a transition is one of the child of its scope that is, or contains, its target, and the target is in it.
pub fn entry_tree_fits()
    ensures { EntryTreeFits }
{}

/// The transitions that fire on the walk are the enabled ones that no enabled transition blocks. One blocks another where its
/// scope is above the other's, or where the scopes are the same and its number is lower.
pub fn walk_fires_by_rule()
    ensures { WalkFiresByRule }
{}

/// After the walk a state is in where the entry tree of a fired transition has it, or where it was in and no fired transition
/// has its scope above it.
pub fn walk_moves_by_rule()
    ensures { WalkMovesByRule }
{}

/// After each list of steps the central run is in a configuration, and what fires in the next step are the enabled transitions
/// that no enabled transition blocks.
pub fn run_goes_by_rule()
    ensures { RunGoesByRule }
{}
