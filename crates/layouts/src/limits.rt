// How many classes, individuals and roles a deck declares, and how many fresh ids its run took.
ghost use Rattle.std.specs.Prelude.{◌≤◌};
ghost use Rattle.rules.specs.Deck.{most_classes, most_individuals, most_roles};

#[derive(Clone, Copy)]
pub struct Limits {
    pub classes: u32,
    pub individuals: u32,
    pub roles: u32,
    pub fresh: u32,
    pub ghost few_classes: { classes ≤ most_classes },
    pub ghost few_individuals: { individuals ≤ most_individuals },
    pub ghost few_roles: { roles ≤ most_roles },
    pub ghost few_fresh: { fresh ≤ 2000000 },
}
