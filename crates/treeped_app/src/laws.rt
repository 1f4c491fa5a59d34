//! Laws of the command. Its answers on statements, on sites and on scripts without sharp calls are right. A pruned sheet does the
//! same as the whole one. Both engines give the same answers.
ghost use Rattle.treeped_app.specs.Laws.{DeadDoesNothing, DeadIsRight, EnginesAgree, PlainIsRight, PruneIsRight, SiteIsRight, SitePruneIsRight};

/// Two runs of the same mode on the same texts, with the same limits of a proof and of a list, write the same bytes. `--plain` and the
/// budgets change nothing, where no answer of either run is `spent`.
pub fn engines_agree()
    ensures { EnginesAgree }
{}

/// For a script without sharp calls, each answer is right for the statements as they are judged. So no answer is `maybe`.
pub fn plain_is_right()
    ensures { PlainIsRight }
{}

/// Where no answer is `spent`, the lines of `--dead` are right. A statement is dead exactly where it selects no node after any legal
/// steps. The handler that its line names is the first that never runs. The steps of a live statement lead to a node that it selects.
pub fn dead_is_right()
    ensures { DeadIsRight }
{}

/// Let no answer be `spent`. Then a script does the same on its page without some or all of the statements whose lines say `dead`. It
/// leads to the same trees, reaches the same selectors and has the same live statements.
pub fn dead_does_nothing()
    ensures { DeadDoesNothing }
{}

/// An item of a site is `unused` exactly where it is `unused` on every page. Then no legal steps and losses from any of the pages, by
/// its own script, reach its selector.
pub fn site_is_right()
    ensures { SiteIsRight }
{}

/// The sheet that `--prune` writes does the same as the whole sheet, at each node of each tree that legal steps and losses make of the
/// page. With `--site` the same is true on each page, by its own script.
pub fn prune_is_right()
    ensures page { PruneIsRight }
    ensures site { SitePruneIsRight }
{}
