// The numbered cases: docs/SPECIFICATION.md, 'Cases'. Definitions and laws alone.
#![tactic(auto)]
