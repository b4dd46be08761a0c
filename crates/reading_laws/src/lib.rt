// What the readers say of chunk lists: definitions and the laws that lead to them. No code.
#![tactic(auto)]

use refusals::Refusal;
