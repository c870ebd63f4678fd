ghost use Rattle.std.specs.Prelude.{◌≡◌, map};
ghost use Rattle.fort_base.specs.declared.refusal.Place.{Place};
ghost use Rattle.fort_tree.specs.declared.declarations.Component.{Component};
ghost use Rattle.fort_tree.specs.Component.{yield, obeys};
ghost use Rattle.fort_tree.specs.Limits.{crowded};
ghost use Rattle.fort_tree_law_moved.specs.Spots.{moved_token};
ghost use Rattle.fort_tree_law_moved.specs.DeclarationsMoved.{moved_component};

/// A law: a component whose places are moved has the tokens of the component, with their places
/// moved; it obeys the rules on gaps and names as the component does, and what is too much in it
/// stands where the map of places takes it. The chapter is "Grammar".
pub fn moving_places_keeps_the_rest()
    ensures tokens { (g : Place → Place) (c : Component)
        → yield (moved_component g c) ≡ map (moved_token g) (yield c) }
    ensures gaps { (g : Place → Place) (c : Component) → obeys (moved_component g c) ≡ obeys c }
    ensures limits { (g : Place → Place) (c : Component)
        → crowded (moved_component g c) ≡ map g (crowded c) }
{}
