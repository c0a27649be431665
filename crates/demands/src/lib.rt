// The demands on the whole, the sentences beside them and the promises of the requests: docs/SPECIFICATION.md, 'Demands'
// and the sections from 'Words' to 'Sheet' that it rests on, and 'Library' for Judge's report. Definitions and laws alone.
#![tactic(auto)]
