// What the C calls take and give: definitions alone.
#![tactic(auto)]
