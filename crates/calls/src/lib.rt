// The calls on frames held against tables that were worked out from the rules. There are only tests here.
#![tactic(auto)]

#[cfg(test)]
mod blank;
#[cfg(test)]
mod given;
#[cfg(test)]
mod orders;
#[cfg(test)]
mod refusals;
#[cfg(test)]
mod writes;
