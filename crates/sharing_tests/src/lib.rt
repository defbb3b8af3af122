// Tests of the question whether a task is separate, and of what it rests on.
#![tactic(auto)]

#[cfg(test)]
mod asking;
#[cfg(test)]
mod calls;
#[cfg(test)]
mod chains;
#[cfg(test)]
mod comparison;
#[cfg(test)]
mod dice;
#[cfg(test)]
mod examples;
#[cfg(test)]
mod naive;
#[cfg(test)]
mod refusals;
