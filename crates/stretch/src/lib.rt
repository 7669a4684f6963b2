// What a reading passes without a whole element for each: stretches of characters of one width.
#![tactic(auto)]

pub mod characters;
