// The rule that a request to the layers applies (source document 001, Figure 1).
ghost use Rattle.std.specs.Prelude.{◌≡◌};
ghost use Rattle.lists.specs.Pages.{bit};
ghost use Rattle.paging.specs.Layers.{is_join};
ghost use Rattle.paging.specs.Numbers.{rule_of, rule_number};

// 1a appends a layer, 1b joins layers, 1c lifts a page out of its layer.
#[derive(Clone, Copy, Debug, PartialEq, Eq)]
pub enum RuleApplied {
    Append,
    Join,
    Lift,
}

impl RuleApplied {
    // The number that an accepted request answers (document 02, request 02).
    pub fn number(self) -> u32
        ensures { result ≡ rule_number (rule_of self) }
    {
        match self {
            RuleApplied::Append => 1,
            RuleApplied::Join => 2,
            RuleApplied::Lift => 3,
        }
    }

    // The bundles that it counts.
    pub fn bundles(self) -> u32
        ensures { result ≡ bit (is_join (rule_of self)) }
    {
        match self {
            RuleApplied::Append => 0,
            RuleApplied::Join => 1,
            RuleApplied::Lift => 0,
        }
    }
}
