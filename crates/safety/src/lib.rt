// Theorems only: demands 2 and 3 and the claims of requests 2026-01, 2026-05 and 2026-06 over every list of calls, and the table of document 01's starred cases. No code.
#![tactic(auto)]
